// What an edit comes to: the old list's refusals, the entry's, the new list's; or where its bytes go.
ghost use Rattle.entry.specs.Plan.{PlansPut, PlansDrop};
ghost use Rattle.entry.specs.Spot.{Asks};

use crate::entries::{Entry, is_entry, record_of};
use crate::judging::{judge_drop, judge_put};
use crate::spot::{Spot, find};
use evaluate::check_list;
use words::{Fault, Refusal};

// The record at the spot gives way to so many bytes; the new list's length.
#[derive(Clone, Copy)]
pub struct Plan {
    pub spot: Spot,
    pub size: usize,
    pub total: usize,
}

// The refusals before the new list is looked at: the old list's, then that of a kind that no entry has.
fn check(list: &[u8], kind: u8) -> Result<(), Refusal>
    ensures { Asks list.now kind result }
{
    check_list(list)?;
    if !is_entry(kind) {
        return Err(Fault::UnknownKind.at(0));
    }
    Ok(())
}

// The entry put into the list, in place of the one of the same kind, realm and id.
pub fn plan_put(list: &[u8], entry: Entry) -> Result<Plan, Refusal>
    ensures { PlansPut list.now entry result }
{
    check(list, entry.kind)?;
    let r = record_of(entry);
    let spot = find(list, r);
    let total = list.len() - spot.size + r.size;
    judge_put(list, r, spot.at, total)?;
    Ok(Plan {
        spot,
        size: r.size,
        total,
    })
}

// The entry of this kind, realm and id dropped from the list.
pub fn plan_drop(list: &[u8], entry: Entry) -> Result<Plan, Refusal>
    ensures { PlansDrop list.now entry result }
{
    check(list, entry.kind)?;
    let spot = find(list, record_of(entry));
    if spot.size == 0 {
        return Err(Refusal::NothingToDrop);
    }
    let total = list.len() - spot.size;
    judge_drop(entry.kind, spot.at, total)?;
    Ok(Plan {
        spot,
        size: 0,
        total,
    })
}
