// Asking what is in the way of a request.
ghost use Rattle.std.specs.Prelude.{◌≡◌, ◌+◌, ◌≤◌, length};
ghost use Rattle.words.specs.Writing.{over};
ghost use Rattle.table.specs.Layout.{table_of};
ghost use Rattle.table.specs.declared.slot.Slot.TheVariants.{Held};
ghost use Rattle.tokens.specs.Ask.{entry_bytes, list_for, Asks};
ghost use Rattle.tokens.specs.Scan.{Lists};

use claims::{Claim, conflict, is_malformed};
use surveys::{Seen, survey};
use table::{LIMIT, Refusal, Slot, WIDTH, after_header, read_slot};
use writes::write_number;

// An entry takes so many bytes.
const ENTRY: usize = 13;

fn write_entry(out: &mut [u8], at: usize, number: u64, host: u16, types: u16)
    requires { at + 13 ≤ length out.old }
    ensures { out.new ≡ over at (entry_bytes number host types) out.old }
{
    out[at] = 3;
    write_number(out, at + 1, number);
    write_number(out, at + 9, host);
    write_number(out, at + 11, types);
}

// The entry of a token, where it is in the way; the place after it.
fn list_token(out: &mut [u8], at: usize, number: u64, held: Claim, claim: Claim) -> usize
    requires { at + 13 ≤ length out.old }
    ensures { Lists (Held number held) claim out.old at result out.new }
{
    let types = conflict(held, claim);
    if types == 0 {
        return at;
    }
    write_entry(out, at, number, held.host, types);
    at + ENTRY
}

fn list_slot(out: &mut [u8], at: usize, slot: Slot, claim: Claim) -> usize
    requires { at + 13 ≤ length out.old }
    ensures { Lists slot claim out.old at result out.new }
{
    match slot {
        Slot::Free => at,
        Slot::Held {
            number,
            claim: held,
        } => list_token(out, at, number, held, claim),
    }
}

// All entries, up to the last one's end.
fn list_all(table: &[u8], claim: Claim, out: &mut [u8], end: usize)
    requires { (end ≡ length (list_for claim (table_of table.now))) × (end ≤ length out.old) }
    ensures { out.new ≡ over 0 (list_for claim (table_of table.now)) out.old }
{
    let mut at = 0;
    for slot in after_header(table).chunks_exact(WIDTH) {
        if at == end {
            break;
        }
        at = list_slot(out, at, read_slot(slot), claim);
    }
}

// Each token in the way is listed in slot order; the answer is their count.
pub fn ask(table: &[u8], claim: Claim, out: &mut [u8]) -> Result<usize, Refusal>
    ensures { Asks table.now claim out.old result out.new }
{
    let Seen { conflicts, free: _ } = survey(table, claim)?;
    if is_malformed(claim, LIMIT) {
        return Err(Refusal::Malformed);
    }
    let end = ENTRY * conflicts;
    if out.len() < end {
        return Err(Refusal::ListTooShort { count: conflicts });
    }
    list_all(table, claim, out, end);
    Ok(conflicts)
}
