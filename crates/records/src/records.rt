// One record of an access list.
ghost use Rattle.std.specs.Prelude.{◌≡◌, ◌+◌, ◌≤◌, ◌<◌, eqb, get_or, if◌then◌else◌};
ghost use Rattle.words.specs.Number.{number_at};
ghost use Rattle.words.specs.Realm.{zero_realm, realm_at};
ghost use Rattle.records.specs.Kind.{body, body_of};
ghost use Rattle.records.specs.Reading.{read_as, ReadsRecord};

use crate::kind::{ANY_OTHER, DEFAULT_REALM, FOREIGN_GROUP, FOREIGN_OTHER, GROUP, USER_OBJ};
use words::{Fault, Realm, number_at, realm_at};

// What a record says, and its length with the kind's byte; what its kind has not is zero.
#[derive(Clone, Copy)]
pub struct Record {
    pub kind: u8,
    pub realm: Realm,
    pub id: u32,
    pub rights: u8,
    pub size: usize,
}

// What a kind has, and nothing where it has not: one function over three readers would be longer than the three.
#[tactic(auto, unfolding(words::specs::Realm::zero_realm))]
fn realm_in(tail: &[u8], width: usize) -> Realm
    ensures { result ≡ (if eqb width 0 then zero_realm else realm_at 1 tail.now) }
{
    if width == 0 {
        return Realm::ZERO;
    }
    realm_at(tail, 1)
}

fn id_in(tail: &[u8], width: usize, at: usize) -> u32
    ensures { result ≡ (if eqb width 0 then 0 else number_at 4 at tail.now) }
{
    if width == 0 {
        return 0;
    }
    number_at(tail, at)
}

fn rights_in(tail: &[u8], width: usize, at: usize) -> u8
    ensures { result ≡ (if eqb width 0 then 0 else get_or tail.now at 0) }
{
    if width == 0 {
        return 0;
    }
    tail.get(at).copied().unwrap_or(0)
}

// A record whose kind has a body of these lengths.
#[tactic(auto, using(crate::proofs::Tails::read_short, crate::proofs::Tails::read_whole))]
fn read_as(
    tail: &[u8],
    kind: u8,
    realm: usize,
    id: usize,
    rights: usize,
) -> Result<Option<Record>, Fault>
    requires { (body_of kind ≡ body realm id rights) × (0 < realm + id + rights) × (realm + id + rights ≤ 21) }
    ensures { result ≡ read_as kind tail.now }
{
    let id_at = 1 + realm;
    let rights_at = id_at + id;
    let size = rights_at + rights;
    if tail.len() < size {
        return Err(Fault::CutShort);
    }
    Ok(Some(Record {
        kind,
        realm: realm_in(tail, realm),
        id: id_in(tail, id, id_at),
        rights: rights_in(tail, rights, rights_at),
        size,
    }))
}

// The record that the tail begins with; none where it is empty.
pub fn read_record(tail: &[u8]) -> Result<Option<Record>, Fault>
    ensures { ReadsRecord tail.now result }
{
    if tail.is_empty() {
        return Ok(None);
    }
    let kind = tail[0];
    if kind <= ANY_OTHER {
        if kind < DEFAULT_REALM {
            return Err(Fault::UnknownKind);
        }
        if kind < USER_OBJ {
            return read_as(tail, kind, 16, 0, 0);
        }
        return read_as(tail, kind, 0, 0, 1);
    }
    if kind <= GROUP {
        return read_as(tail, kind, 0, 4, 1);
    }
    if kind <= FOREIGN_GROUP {
        return read_as(tail, kind, 16, 4, 1);
    }
    if kind <= FOREIGN_OTHER {
        return read_as(tail, kind, 16, 0, 1);
    }
    Err(Fault::UnknownKind)
}
