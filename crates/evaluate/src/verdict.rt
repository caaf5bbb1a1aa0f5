// The check of a whole access list.
ghost use Rattle.evaluate.specs.Evaluation.{Checks};

use crate::asking::Caller;
use crate::pass::pass;
use words::{Realm, Refusal};

// The pass for a stranger, whose rights are not looked at: one loop serves the check and the rights, since two would each be slower.
pub fn check_list(list: &[u8]) -> Result<(), Refusal>
    ensures { Checks list.now result }
{
    let caller = Caller {
        realm: Realm { hi: 1, lo: 0 },
        user: 0,
        group: 0,
    };
    let groups = [0u32; 0];
    pass(list, &groups, caller, 1, 1)?;
    Ok(())
}
