// Realms: sixteen bytes, held as two numbers of eight.
ghost use Rattle.words.specs.Realm.{ReadsRealm, TellsUnknown};

use crate::number::{eight, holds};

#[derive(Clone, Copy, PartialEq, Eq)]
pub struct Realm {
    pub hi: u64,
    pub lo: u64,
}

impl Realm {
    // Sixteen zeroes.
    pub const ZERO: Realm = Realm { hi: 0, lo: 0 };

    // 255, 255, 255, 254 and twelve zeroes.
    pub const UNKNOWN: Realm = Realm {
        hi: 0xffff_fffe_0000_0000,
        lo: 0,
    };
}

// The sixteen bytes at a place; zeroes where they are not all there.
pub fn realm_at(bytes: &[u8], at: usize) -> Realm
    ensures { ReadsRealm bytes.now at result }
{
    if holds(bytes, at, 16) {
        Realm {
            hi: eight(bytes, at),
            lo: eight(bytes, at + 8),
        }
    } else {
        Realm::ZERO
    }
}

#[tactic(auto, unfolding(crate::specs::Realm::same_realm, crate::specs::Realm::unknown_realm))]
pub fn is_unknown(realm: Realm) -> bool
    ensures { TellsUnknown realm result }
{
    realm == Realm::UNKNOWN
}
