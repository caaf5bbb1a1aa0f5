// Each token beside those before it.
ghost use Rattle.std.specs.Prelude.{◌≡◌};
ghost use Rattle.words.specs.Test.{all_of};
ghost use Rattle.table.specs.Layout.{table_of};
ghost use Rattle.table.specs.declared.slot.Slot.TheVariants.{Held};
ghost use Rattle.audit.specs.Audit.{apart, all_apart, Audits};
ghost use Rattle.audit.specs.Before.{slots_of};

use claims::{Claim, conflict};
use table::{Slot, WIDTH, after_header, read_slot, well_formed};

// Another number and no conflict.
#[tactic(auto, unfolding(crate::specs::Audit::apart))]
fn tokens_apart(given: u64, held: Claim, number: u64, claim: Claim) -> bool
    ensures { result ≡ apart (Held given held) (Held number claim) }
{
    given != number && conflict(held, claim) == 0
}

#[tactic(auto, unfolding(crate::specs::Audit::apart))]
fn is_apart(slot: Slot, number: u64, claim: Claim) -> bool
    ensures { result ≡ apart slot (Held number claim) }
{
    match slot {
        Slot::Free => true,
        Slot::Held {
            number: given,
            claim: held,
        } => tokens_apart(given, held, number, claim),
    }
}

// The slots before a token beside it.
fn are_apart(before: &[u8], number: u64, claim: Claim) -> bool
    ensures { result ≡ all_of (λ slot. apart slot (Held number claim)) (slots_of before.now) }
{
    for slot in before.chunks_exact(WIDTH) {
        if !is_apart(read_slot(slot), number, claim) {
            return false;
        }
    }
    true
}

fn is_clear(before: &[u8], slot: Slot) -> bool
    ensures { result ≡ all_of (λ other. apart other slot) (slots_of before.now) }
{
    match slot {
        Slot::Free => true,
        Slot::Held { number, claim } => are_apart(before, number, claim),
    }
}

fn all_clear(table: &[u8]) -> bool
    ensures { result ≡ all_apart (table_of table.now).slots }
{
    for (i, slot) in after_header(table).chunks_exact(WIDTH).enumerate() {
        if !is_clear(&table[WIDTH..WIDTH * (i + 1)], read_slot(slot)) {
            return false;
        }
    }
    true
}

// Never a refusal: no, where anything is amiss.
pub fn audit(table: &[u8]) -> bool
    ensures { Audits table.now result }
{
    if !well_formed(table) {
        return false;
    }
    all_clear(table)
}
