// Whether a table is well formed.
ghost use Rattle.std.specs.Prelude.{◌≡◌, true, ◌≤◌, length, drop};
ghost use Rattle.words.specs.Test.{all_of};
ghost use Rattle.words.specs.Number.{part};
ghost use Rattle.table.specs.Layout.{width, slots_in};
ghost use Rattle.table.specs.Form.{is_length, all_zero, is_token, is_slot, TellsLength, TellsOpening, TellsSlot, TellsForm};

use crate::slot::{after_header, kind_of, read_claim};
use crate::{LIMIT, NEXT, WIDTH};
use claims::{Claim, is_malformed};
use words::number_at;

// The lengths of a table with 1 slot and with 1,024.
const LEAST: usize = WIDTH * 2;

const MOST: usize = WIDTH * 1025;

// 41 × (1 + n) bytes, n from 1 to 1,024.
#[tactic(auto, unfolding(crate::specs::Form::is_length))]
pub fn is_length(n: usize) -> bool
    ensures { TellsLength n result }
{
    (n % WIDTH == 0) & (LEAST <= n) & (n <= MOST)
}

// 32 zero bytes after the kind.
fn is_blank_header(table: &[u8]) -> bool
    requires { width ≤ length table.now }
    ensures { result ≡ all_zero (part 1 32 table.now) }
{
    (number_at::<u64>(table, 1) == 0)
        & (number_at::<u64>(table, 9) == 0)
        & (number_at::<u64>(table, 17) == 0)
        & (number_at::<u64>(table, 25) == 0)
}

// Length and header are well formed.
pub fn opens(table: &[u8]) -> bool
    ensures { TellsOpening table.now result }
{
    if !is_length(table.len()) {
        return false;
    }
    (kind_of(table) == 2) & is_blank_header(table) & (number_at::<u64>(table, NEXT) != 0)
}

// 40 zero bytes after the kind.
fn is_blank_slot(slot: &[u8]) -> bool
    requires { length slot.now ≡ width }
    ensures { result ≡ all_zero (drop 1 slot.now) }
{
    (number_at::<u64>(slot, 1) == 0)
        & (number_at::<u64>(slot, 9) == 0)
        & (number_at::<u64>(slot, 17) == 0)
        & (number_at::<u64>(slot, 25) == 0)
        & (number_at::<u64>(slot, 33) == 0)
}

// A claim in order, under a number that was given.
#[tactic(auto, unfolding(crate::specs::Form::is_token))]
fn is_token(number: u64, claim: Claim, limit: u16, next: u64) -> bool
    ensures { result ≡ is_token limit next number claim }
{
    !is_malformed(claim, limit) & (0 < number) & (number < next)
}

// The bytes of one slot are well formed, in a table of this limit and next number.
pub fn is_slot(slot: &[u8], limit: u16, next: u64) -> bool
    ensures { TellsSlot slot.now limit next result }
{
    if slot.len() != WIDTH {
        return false;
    }
    let kind = kind_of(slot);
    if kind == 0 {
        return is_blank_slot(slot);
    }
    if kind != 1 {
        return false;
    }
    is_token(number_at(slot, 33), read_claim(slot), limit, next)
}

fn are_slots(table: &[u8], limit: u16, next: u64) -> bool
    ensures { result ≡ all_of (is_slot limit next) (slots_in table.now) }
{
    for slot in after_header(table).chunks_exact(WIDTH) {
        if !is_slot(slot, limit, next) {
            return false;
        }
    }
    true
}

// The whole table is well formed.
pub fn well_formed(table: &[u8]) -> bool
    ensures { TellsForm table.now result }
{
    if !opens(table) {
        return false;
    }
    are_slots(table, LIMIT, number_at(table, NEXT))
}
