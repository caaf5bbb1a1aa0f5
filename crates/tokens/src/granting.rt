// Granting a token.
ghost use Rattle.std.specs.Prelude.{◌≡◌, true};
ghost use Rattle.table.specs.Layout.{table_of};
ghost use Rattle.table.specs.Form.{well_formed};
ghost use Rattle.surveys.specs.Survey.{Saw};
ghost use Rattle.tokens.specs.Grant.{Grants};
ghost use Rattle.tokens.specs.Widest.{GrantsWidest};
ghost use Rattle.tokens.specs.Scan.{Checks, HasRoom, Issues};

use claims::{Claim, is_malformed};
use store::write_slot;
use surveys::{Seen, SeenWide, survey, survey_wide};
use table::{LIMIT, NEXT, Refusal, Slot, WIDTH};
use widest::{Range, with_range};
use words::number_at;
use writes::write_number;

// The last number is never given.
const LAST_NUMBER: u64 = u64::MAX;

// A token's number, and its range.
#[derive(Clone, Copy)]
pub struct Granted {
    pub number: u64,
    pub range: Range,
}

// The free slot that a grant takes, or its refusal, in the order of the paper.
fn check(table: &[u8], seen: Seen, claim: Claim) -> Result<usize, Refusal>
    requires { (well_formed table.now ≡ true) × Saw (table_of table.now).slots claim seen }
    ensures { Checks table.now claim result }
{
    if is_malformed(claim, LIMIT) {
        return Err(Refusal::Malformed);
    }
    if seen.conflicts != 0 {
        return Err(Refusal::Conflict);
    }
    let Some(free) = seen.free else {
        return Err(Refusal::NoFreeSlot);
    };
    if number_at::<u64>(table, NEXT) == LAST_NUMBER {
        return Err(Refusal::NumbersSpent);
    }
    Ok(free)
}

// The claim at the lowest free slot under the next number, which is the answer.
fn issue(table: &mut [u8], free: usize, claim: Claim) -> u64
    requires { HasRoom table.old free }
    ensures { Issues table.old claim result table.new }
{
    let next = number_at(table, NEXT);
    let at = WIDTH * (free + 1);
    write_slot(
        &mut table[at..at + WIDTH],
        Slot::Held {
            number: next,
            claim,
        },
    );
    write_number(table, NEXT, next + 1);
    next
}

// The answer is the new token's number.
pub fn grant(table: &mut [u8], claim: Claim) -> Result<u64, Refusal>
    ensures { Grants table.old claim result table.new }
{
    let seen = survey(table, claim)?;
    let free = check(table, seen, claim)?;
    Ok(issue(table, free, claim))
}

// As grant, with the widest range.
pub fn grant_widest(table: &mut [u8], claim: Claim) -> Result<Granted, Refusal>
    ensures { GrantsWidest table.old claim result table.new }
{
    let SeenWide { seen, range } = survey_wide(table, claim)?;
    let free = check(table, seen, claim)?;
    let number = issue(table, free, with_range(claim, range));
    Ok(Granted { number, range })
}
