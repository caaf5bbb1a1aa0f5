// What a list gives a caller on a file.
ghost use Rattle.evaluate.specs.Evaluation.{Evaluates};

use crate::asking::{Caller, File};
use crate::pass::pass;
use words::Refusal;

// A caller has at most so many further groups.
pub const MOST_GROUPS: usize = 32;

// The rights, and the deciding record by its place and length; of no length where none decides.
#[derive(Clone, Copy)]
pub struct Found {
    pub rights: u8,
    pub start: usize,
    pub size: usize,
}

// The rights by the seven steps, or the refusal: too many groups, then the list's own.
pub fn evaluate(list: &[u8], groups: &[u32], caller: Caller, file: File) -> Result<Found, Refusal>
    ensures { Evaluates list.now groups.now caller file result }
{
    if MOST_GROUPS < groups.len() {
        return Err(Refusal::TooManyGroups);
    }
    let tally = pass(list, groups, caller, file.owner, file.group)?;
    Ok(Found {
        rights: tally.allowed(),
        start: tally.start,
        size: tally.size,
    })
}
