// The rights call, which hands back the deciding record as a part of the caller's own list.
ghost use Rattle.std.specs.Prelude.{◌≡◌, ◌+◌, ◌≤◌, length};
ghost use Rattle.words.specs.Number.{part};
ghost use Rattle.rights.specs.Deciding.{decided_by, Decides};

use crate::access::Access;
use crate::deciding::decide;
use words::Refusal;

// The rights or the refusal, and the deciding record; empty where no record decides, as on a refusal.
#[derive(Clone, Copy)]
pub struct Decision<'a> {
    pub answer: Result<u8, Refusal>,
    pub part: &'a [u8],
}

fn part_at<'a>(list: &'a [u8], start: usize, size: usize) -> &'a [u8]
    requires { start + size ≤ length list.now }
    ensures { (result.now ≡ part start size list.now) × (result.ref_ptr ≡ (list.entry.ref_ptr.0, start + list.entry.ref_ptr.1)) }
{
    &list[start..start + size]
}

// The rights of a caller on a file under its guard, or the refusal, with the record that decided.
pub fn rights<'a, 'g>(access: Access<'a, 'g>) -> Decision<'a>
    ensures { Decides (decided_by access.entry) access.entry.list result }
{
    match decide(access) {
        Ok(found) => Decision {
            answer: Ok(found.rights),
            part: part_at(access.list, found.start, found.size),
        },
        Err(refusal) => Decision {
            answer: Err(refusal),
            part: part_at(access.list, 0, 0),
        },
    }
}
