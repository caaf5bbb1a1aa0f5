// A request that access does not permit.
ghost use Rattle.desk.specs.Verdict.{Refuses};

use claims::{Claim, is_malformed};
use table::{LIMIT, well_formed};
use words::Refusal;

// 30 and 31 come before the verdict.
pub(crate) fn first_refusal(table: &[u8], claim: Claim, verdict: Refusal) -> Refusal
    ensures { Refuses table.now claim verdict result }
{
    if !well_formed(table) {
        return Refusal::NotWellFormed;
    }
    if is_malformed(claim, LIMIT) {
        return Refusal::Malformed;
    }
    verdict
}
