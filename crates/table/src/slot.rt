// One slot of a table: free, or held by a token.
ghost use Rattle.std.specs.Prelude.{◌≡◌};
ghost use Rattle.table.specs.Layout.{kind_of, claim_of, ReadsSlot, SkipsHeader};

use crate::WIDTH;
use claims::{Claim, FileId};
use words::number_at;

// A token is a claim under a number. Free and held are the paper's words, which an `Option` would not say.
#[derive(Clone, Copy)]
pub enum Slot {
    Free,
    Held { number: u64, claim: Claim },
}

// The bytes after the header; none where the table is shorter.
pub fn after_header(table: &[u8]) -> &[u8]
    ensures { SkipsHeader table.now result.now }
{
    table.get(WIDTH..).unwrap_or(&[])
}

// A slot's first byte; 0 where it has none.
#[tactic(auto, unfolding(crate::specs::Layout::kind_of))]
pub(crate) fn kind_of(slot: &[u8]) -> u8
    ensures { result ≡ kind_of slot.now }
{
    slot.first().copied().unwrap_or(0)
}

#[tactic(auto, unfolding(crate::specs::Layout::claim_of))]
pub(crate) fn read_claim(slot: &[u8]) -> Claim
    ensures { result ≡ claim_of slot.now }
{
    Claim {
        types: number_at(slot, 1),
        host: number_at(slot, 3),
        file: FileId {
            hi: number_at(slot, 5),
            lo: number_at(slot, 13),
        },
        first: number_at(slot, 17),
        last: number_at(slot, 25),
    }
}

// What the bytes of a slot say: a token where the kind is 1, else nothing.
#[tactic(auto, unfolding(crate::specs::Layout::slot_of))]
pub fn read_slot(slot: &[u8]) -> Slot
    ensures { ReadsSlot slot.now result }
{
    if kind_of(slot) != 1 {
        return Slot::Free;
    }
    let number = number_at(slot, 33);
    let claim = read_claim(slot);
    Slot::Held { number, claim }
}
