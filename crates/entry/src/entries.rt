// The entry of an edit, and the record that it says.
ghost use Rattle.std.specs.Prelude.{◌≡◌, true, ◌≤◌};
ghost use Rattle.records.specs.Kind.{body_of};
ghost use Rattle.entry.specs.Entry.{is_entry};
ghost use Rattle.entry.specs.Spot.{Says};

use list::Record;
use list::kind::{FOREIGN_GROUP, FOREIGN_OTHER, FOREIGN_USER, USER, USER_OBJ};
use words::Realm;

// What its kind has not is ignored.
#[derive(Clone, Copy)]
pub struct Entry {
    pub kind: u8,
    pub realm: Realm,
    pub id: u32,
    pub rights: u8,
}

// The kinds 2 to 11.
#[tactic(auto, unfolding(crate::specs::Entry::is_entry))]
pub(crate) fn is_entry(kind: u8) -> bool
    ensures { result ≡ is_entry kind }
{
    (USER_OBJ <= kind) & (kind <= FOREIGN_OTHER)
}

// How many bytes of a body are its realm.
#[tactic(auto, using(crate::proofs::Lengths::no_realm, crate::proofs::Lengths::a_realm))]
pub(crate) fn realm_length(kind: u8) -> usize
    requires { is_entry kind ≡ true }
    ensures { (result ≡ (body_of kind).realm) × (result ≤ 16) }
{
    if kind < FOREIGN_USER { 0 } else { 16 }
}

// How many are its id.
#[tactic(auto, using(crate::proofs::Lengths::no_id_yet, crate::proofs::Lengths::no_id_more, crate::proofs::Lengths::an_id))]
pub(crate) fn id_length(kind: u8) -> usize
    requires { is_entry kind ≡ true }
    ensures { (result ≡ (body_of kind).id) × (result ≤ 4) }
{
    if kind < USER || FOREIGN_GROUP < kind {
        0
    } else {
        4
    }
}

// The record that an entry says.
#[tactic(auto, unfolding(crate::specs::Entry::record_for, words::specs::Realm::zero_realm), using(crate::proofs::Lengths::size_is))]
pub(crate) fn record_of(entry: Entry) -> Record
    requires { is_entry entry.kind ≡ true }
    ensures { Says entry result }
{
    let kind = entry.kind;
    let realm = realm_length(kind);
    let id = id_length(kind);
    Record {
        kind,
        realm: if realm == 0 { Realm::ZERO } else { entry.realm },
        id: if id == 0 { 0 } else { entry.id },
        rights: entry.rights,
        size: 2 + realm + id,
    }
}
