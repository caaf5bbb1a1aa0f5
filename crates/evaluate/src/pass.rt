// The one pass over a list: all of its checks, and what is kept of its records for a caller.
ghost use Rattle.std.specs.Prelude.{false};
ghost use Rattle.evaluate.specs.Tally.{Passes};

use crate::asking::{Caller, File, is_of_default_realm};
use crate::steps::step_of;
use crate::tally::{Tally, no_tally};
use list::Walk;
use words::Refusal;

// The file is told by its owner and group: a list looks at no more of it, and two numbers cost less than a struct.
pub(crate) fn pass(
    list: &[u8],
    groups: &[u32],
    caller: Caller,
    owner: u32,
    group: u32,
) -> Result<Tally, Refusal>
    ensures { Passes list.now groups.now caller (record { owner = owner; group = group; dir = false }) result }
{
    let file = File {
        owner,
        group,
        dir: false,
    };
    let mut walk = Walk::start(list);
    let home = is_of_default_realm(caller, walk.home);
    let mut tally = no_tally();
    while let Some((r, next)) = walk.step(list)? {
        tally = tally.with(step_of(home, groups, caller, file, r), walk.at, r);
        walk = next;
    }
    Ok(tally)
}
