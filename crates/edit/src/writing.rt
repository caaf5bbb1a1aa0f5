// Writing the new list to the second buffer.
ghost use Rattle.std.specs.Prelude.{◌≡◌, true, [], ◌+◌, ◌≤◌, ◌<◌, ltb, length, take, drop, if◌then◌else◌, IfOk, IfErr};
ghost use Rattle.words.specs.Writing.{digits, over, written};
ghost use Rattle.words.specs.Realm.{realm_bytes};
ghost use Rattle.words.specs.declared.refusal.Refusal.TheVariants.{OutputTooShort};
ghost use Rattle.records.specs.Kind.{size as size_of};
ghost use Rattle.entry.specs.Entry.{is_entry, record_for};
ghost use Rattle.entry.specs.Spelling.{part_of, spelled};
ghost use Rattle.edit.specs.Writing.{splice, Fits, Writes};

use entry::{Entry, Plan};
use words::{Realm, Refusal};
use writes::{write_number, write_realm};

// All of a piece, from a place on.
#[tactic(auto, using(words::proofs::Written::copied))]
fn copy_to(out: &mut [u8], at: usize, piece: &[u8])
    requires { at + length piece.now ≤ length out.old }
    ensures { out.new ≡ over at piece.now out.old }
{
    out[at..at + piece.len()].copy_from_slice(piece);
}

// How many bytes of an entry's record, so long, are its realm. The one by kind stays private in `entry`: it has a `requires`, and no public function has.
fn realm_length(size: usize) -> usize
    ensures { result ≡ (if ltb size 18 then 0 else 16) }
{
    if size < 18 { 0 } else { 16 }
}

// The realm of a body that has one of n bytes. Apart from `write_id_in`: a realm is two numbers, and `Store` is of one.
#[tactic(auto, using(crate::proofs::Pieces::part_there, crate::proofs::Pieces::part_not_there))]
fn write_realm_in(out: &mut [u8], at: usize, n: usize, realm: Realm)
    ensures { out.new ≡ written at (part_of n (realm_bytes realm)) out.old }
{
    if n != 0 {
        write_realm(out, at, realm);
    }
}

// The id of a body that has one of n bytes.
#[tactic(auto, using(crate::proofs::Pieces::part_there, crate::proofs::Pieces::part_not_there))]
fn write_id_in(out: &mut [u8], at: usize, n: usize, id: u32)
    ensures { out.new ≡ written at (part_of n (digits 4 id)) out.old }
{
    if n != 0 {
        write_number(out, at, id);
    }
}

// The record of an entry, so long.
fn write_record(out: &mut [u8], at: usize, entry: Entry, size: usize)
    requires { (is_entry entry.kind ≡ true) × (size ≡ size_of entry.kind) × (at + size ≤ length out.old) }
    ensures { out.new ≡ over at (spelled (record_for entry)) out.old }
{
    let realm = realm_length(size);
    let id = size - 2 - realm;
    let id_at = at + 1 + realm;
    out[at] = entry.kind;
    write_realm_in(out, at + 1, realm, entry.realm);
    write_id_in(out, id_at, id, entry.id);
    out[id_at + id] = entry.rights;
}

// What an edit begins with: the buffer has room for the new list, and gets what stands before the plan's spot.
fn copy_head(list: &[u8], plan: Plan, out: &mut [u8]) -> Result<(), Refusal>
    requires { Fits list.now plan }
    ensures fine { IfOk result (λ none. (plan.total ≤ length out.old) × (out.new ≡ over 0 (take plan.spot.at list.now) out.old)) }
    ensures short { IfErr result (λ refusal. (refusal ≡ OutputTooShort) × (length out.old < plan.total) × (out.new ≡ out.old)) }
{
    if out.len() < plan.total {
        return Err(Refusal::OutputTooShort);
    }
    copy_to(out, 0, &list[0..plan.spot.at]);
    Ok(())
}

// What it ends with: what stands after the spot, behind the bytes that take its place. The new list's length.
fn copy_tail(list: &[u8], plan: Plan, out: &mut [u8]) -> usize
    requires { Fits list.now plan × (plan.total ≤ length out.old) }
    ensures { (result ≡ plan.total) × (out.new ≡ over (plan.spot.at + plan.size) (drop (plan.spot.at + plan.spot.size) list.now) out.old) }
{
    let end = plan.spot.at + plan.spot.size;
    copy_to(out, plan.spot.at + plan.size, &list[end..]);
    plan.total
}

// The list with the entry's record in place of what stands at the plan's spot.
pub(crate) fn write_put(
    list: &[u8],
    plan: Plan,
    entry: Entry,
    out: &mut [u8],
) -> Result<usize, Refusal>
    requires { Fits list.now plan × (is_entry entry.kind ≡ true) × (plan.size ≡ size_of entry.kind) }
    ensures { Writes (splice list.now plan.spot (spelled (record_for entry))) out.old result out.new }
{
    copy_head(list, plan, out)?;
    write_record(out, plan.spot.at, entry, plan.size);
    Ok(copy_tail(list, plan, out))
}

// The list without what stands at the plan's spot.
pub(crate) fn write_drop(list: &[u8], plan: Plan, out: &mut [u8]) -> Result<usize, Refusal>
    requires { Fits list.now plan × (plan.size ≡ 0) }
    ensures { Writes (splice list.now plan.spot []) out.old result out.new }
{
    copy_head(list, plan, out)?;
    Ok(copy_tail(list, plan, out))
}
