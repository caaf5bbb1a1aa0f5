// Realms, written to lent bytes.
ghost use Rattle.words.specs.Realm.{WritesRealm};

use crate::number::store_eight;
use words::{Realm, holds};

// The sixteen bytes of a realm at a place; nothing is written where they have no room.
pub fn write_realm(bytes: &mut [u8], at: usize, realm: Realm)
    ensures { WritesRealm realm bytes.old at bytes.new }
{
    if holds(bytes, at, 16) {
        store_eight(bytes, at, realm.hi);
        store_eight(bytes, at + 8, realm.lo);
    }
}
