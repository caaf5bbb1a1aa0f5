// Surveying a table for the widest range, which is found on the way. One loop for both surveys would cost ask and grant.
ghost use Rattle.std.specs.Prelude.{◌≡◌, true, ◌≤◌};
ghost use Rattle.table.specs.Layout.{count};
ghost use Rattle.widest.specs.Widest.{is_rival};
ghost use Rattle.surveys.specs.Survey.{SurveysWide};
ghost use Rattle.surveys.specs.Scan.{PassesTokenWide, PassesWide, SurveysSlotsWide};

use crate::scan::{Seen, pass_token};
use claims::Claim;
use table::{LIMIT, NEXT, Refusal, Slot, WIDTH, after_header, is_slot, opens, read_slot};
use widest::{Range, beside, is_rival};
use words::number_at;

// What was seen, and the range that the tokens leave.
#[derive(Clone, Copy)]
pub struct SeenWide {
    pub seen: Seen,
    pub range: Range,
}

// A rival's slot more, where it has no byte in common with the claim.
fn pass_beside(told: SeenWide, held: Claim, claim: Claim) -> SeenWide
    requires { (told.seen.conflicts ≤ 1024) × (is_rival claim held ≡ true) }
    ensures { PassesTokenWide told held claim result }
{
    SeenWide {
        seen: pass_token(told.seen, held, claim),
        range: beside(told.range, held, claim),
    }
}

// A token's slot more, for the widest range: no rival is in the way, and a rival is where it meets the claim.
fn pass_token_wide(told: SeenWide, held: Claim, claim: Claim) -> SeenWide
    requires { told.seen.conflicts ≤ 1024 }
    ensures { PassesTokenWide told held claim result }
{
    if !is_rival(held, claim) {
        return told;
    }
    if held.last < claim.first {
        return pass_beside(told, held, claim);
    }
    if claim.last < held.first {
        return pass_beside(told, held, claim);
    }
    SeenWide {
        seen: Seen {
            conflicts: told.seen.conflicts + 1,
            ..told.seen
        },
        ..told
    }
}

// One slot more, the one at i, for the widest range.
#[tactic(auto, unfolding(table::specs::Table::is_free, table::specs::Table::is_in_the_way, widest::specs::Widest::narrowed))]
fn pass_wide(told: SeenWide, i: usize, slot: Slot, claim: Claim) -> SeenWide
    requires { told.seen.conflicts ≤ 1024 }
    ensures { PassesWide told i slot claim result }
{
    match slot {
        Slot::Free => SeenWide {
            seen: Seen {
                free: told.seen.free.or(Some(i)),
                ..told.seen
            },
            ..told
        },
        Slot::Held {
            number: _,
            claim: held,
        } => pass_token_wide(told, held, claim),
    }
}

fn survey_slots_wide(table: &[u8], claim: Claim, limit: u16, next: u64) -> Option<SeenWide>
    requires { count table.now ≤ 1024 }
    ensures { SurveysSlotsWide table.now claim limit next result }
{
    let mut told = SeenWide {
        seen: Seen {
            conflicts: 0,
            free: None,
        },
        range: Range::ALL,
    };
    for (i, slot) in after_header(table).chunks_exact(WIDTH).enumerate() {
        if !is_slot(slot, limit, next) {
            return None;
        }
        told = pass_wide(told, i, read_slot(slot), claim);
    }
    Some(told)
}

pub fn survey_wide(table: &[u8], claim: Claim) -> Result<SeenWide, Refusal>
    ensures { SurveysWide table.now claim result }
{
    if !opens(table) {
        return Err(Refusal::NotWellFormed);
    }
    survey_slots_wide(table, claim, LIMIT, number_at(table, NEXT)).ok_or(Refusal::NotWellFormed)
}
