// Where an entry's record stands in a list, or would stand.
ghost use Rattle.std.specs.Prelude.{◌≡◌, true, [], ◌+◌, ◌≤◌, ◌<◌, length, get_or};
ghost use Rattle.words.specs.Said.{done};
ghost use Rattle.records.specs.Kind.{size};
ghost use Rattle.records.specs.Reading.{record_of};
ghost use Rattle.list.specs.Checking.{check_says};
ghost use Rattle.entry.specs.Entry.{is_entry};
ghost use Rattle.entry.specs.Plan.{spot_for};
ghost use Rattle.entry.specs.Spot.{side_of, has_mask};

use crate::entries::{Entry, id_length, realm_length, record_of};
use list::kind::MASK_OBJ;
use list::{Record, bodies_in_order};
use std::cmp::Ordering;
use words::{Realm, number_at, realm_at};

// The record of the default realm, which comes before every entry.
const HEADER: usize = 17;

// A place, and the length of the record there; of no length where the record is not in the list.
#[derive(Clone, Copy)]
pub struct Spot {
    pub at: usize,
    pub size: usize,
}

// The record that a tail begins with.
#[tactic(auto, using(records::proofs::Bodies::some_size, crate::proofs::Lengths::size_is, crate::proofs::Lengths::head_is))]
fn head_of(tail: &[u8]) -> Record
    requires { (is_entry (get_or tail.now 0 0) ≡ true) × (size (get_or tail.now 0 0) ≤ length tail.now) }
    ensures { result ≡ record_of (get_or tail.now 0 0) tail.now }
{
    let kind = tail[0];
    let id_at = 1 + realm_length(kind);
    let rights_at = id_at + id_length(kind);
    record_of(Entry {
        kind,
        realm: realm_at(tail, 1),
        id: number_at(tail, id_at),
        rights: tail[rights_at],
    })
}

// A record's length.
#[tactic(auto, using(crate::proofs::Lengths::size_is))]
fn size_of(kind: u8) -> usize
    requires { is_entry kind ≡ true }
    ensures { result ≡ size kind }
{
    2 + realm_length(kind) + id_length(kind)
}

// Where the record that a tail begins with stands by r. Where the kinds differ they tell, and no more is read; else the bodies tell,
// since no entry is of kind 1.
// Test by test: `cmp` of the kinds makes a put into a list of 31 bytes a sixth slower, `cmp` of the bodies costs a record 8
// instructions more.
#[tactic(auto, unfolding(records::specs::Reading::record_of), using(records::proofs::Bodies::some_size))]
fn side_of(tail: &[u8], r: Record) -> Ordering
    requires { (is_entry (get_or tail.now 0 0) ≡ true) × (size (get_or tail.now 0 0) ≤ length tail.now) }
    ensures { result ≡ side_of (record_of (get_or tail.now 0 0) tail.now) r }
{
    let kind = tail[0];
    if kind < r.kind {
        return Ordering::Less;
    }
    if r.kind < kind {
        return Ordering::Greater;
    }
    let q = head_of(tail);
    if bodies_in_order(q, r) {
        return Ordering::Less;
    }
    if bodies_in_order(r, q) {
        return Ordering::Greater;
    }
    Ordering::Equal
}

// The spot of r in a list that passed. A `while`: how long a record is, its kind tells, so no iterator of the library goes from one to the next.
pub(crate) fn find(list: &[u8], r: Record) -> Spot
    requires { (check_says list.now ≡ done []) × (1 < r.kind) }
    ensures { result ≡ spot_for list.now r }
{
    let mut at = HEADER;
    while at < list.len() {
        match side_of(&list[at..], r) {
            Ordering::Less => at += size_of(list[at]),
            Ordering::Equal => {
                return Spot {
                    at,
                    size: size_of(list[at]),
                };
            }
            Ordering::Greater => return Spot { at, size: 0 },
        }
    }
    Spot { at, size: 0 }
}

// A list that passed has a mask_obj.
pub(crate) fn has_mask(list: &[u8]) -> bool
    requires { check_says list.now ≡ done [] }
    ensures { result ≡ has_mask list.now }
{
    let mask = Record {
        kind: MASK_OBJ,
        realm: Realm::ZERO,
        id: 0,
        rights: 0,
        size: 2,
    };
    0 < find(list, mask).size
}
