// Surveying a table for a claim.
ghost use Rattle.std.specs.Prelude.{◌≤◌};
ghost use Rattle.table.specs.Layout.{count};
ghost use Rattle.surveys.specs.Survey.{Surveys};
ghost use Rattle.surveys.specs.Scan.{PassesToken, Passes, SurveysSlots};

use claims::{Claim, conflict};
use table::{LIMIT, NEXT, Refusal, Slot, WIDTH, after_header, is_slot, opens, read_slot};
use words::number_at;

// How many tokens conflict, and the lowest free slot.
#[derive(Clone, Copy)]
pub struct Seen {
    pub conflicts: usize,
    pub free: Option<usize>,
}

// A token's slot more.
pub(crate) fn pass_token(seen: Seen, held: Claim, claim: Claim) -> Seen
    requires { seen.conflicts ≤ 1024 }
    ensures { PassesToken seen held claim result }
{
    if conflict(held, claim) == 0 {
        return seen;
    }
    Seen {
        conflicts: seen.conflicts + 1,
        ..seen
    }
}

// One slot more, the one at i.
#[tactic(auto, unfolding(table::specs::Table::is_free, table::specs::Table::is_in_the_way))]
fn pass(seen: Seen, i: usize, slot: Slot, claim: Claim) -> Seen
    requires { seen.conflicts ≤ 1024 }
    ensures { Passes seen i slot claim result }
{
    match slot {
        Slot::Free => Seen {
            free: seen.free.or(Some(i)),
            ..seen
        },
        Slot::Held {
            number: _,
            claim: held,
        } => pass_token(seen, held, claim),
    }
}

// Apart from `survey`, whose refusal would else be carried through the loop: four instructions for each slot.
#[inline(never)]
fn survey_slots(table: &[u8], claim: Claim, limit: u16, next: u64) -> Option<Seen>
    requires { count table.now ≤ 1024 }
    ensures { SurveysSlots table.now claim limit next result }
{
    let mut seen = Seen {
        conflicts: 0,
        free: None,
    };
    for (i, slot) in after_header(table).chunks_exact(WIDTH).enumerate() {
        if !is_slot(slot, limit, next) {
            return None;
        }
        seen = pass(seen, i, read_slot(slot), claim);
    }
    Some(seen)
}

pub fn survey(table: &[u8], claim: Claim) -> Result<Seen, Refusal>
    ensures { Surveys table.now claim result }
{
    if !opens(table) {
        return Err(Refusal::NotWellFormed);
    }
    survey_slots(table, claim, LIMIT, number_at(table, NEXT)).ok_or(Refusal::NotWellFormed)
}
