// What lets a record stand in a list: its order after another, its realm, its control.
ghost use Rattle.records.specs.Standing.{TellsBodies, TellsOrder, TellsForbidden, TellsPowerless};

use crate::kind::{DEFAULT_REALM, USER_OBJ, is_foreign};
use crate::records::Record;
use words::{Realm, is_unknown};

// By body without rights, of realm and then of id: the numbers' order is the bytes' order.
#[tactic(auto, unfolding(words::specs::Realm::less_realm))]
pub fn bodies_in_order(earlier: Record, r: Record) -> bool
    ensures { TellsBodies earlier r result }
{
    // Half by half: `<` of tuples or of realms costs a record 3 to 7 instructions more.
    let a = earlier.realm;
    let b = r.realm;
    if a.hi != b.hi {
        return a.hi < b.hi;
    }
    if a.lo != b.lo {
        return a.lo < b.lo;
    }
    earlier.id < r.id
}

// By kind, then by body.
#[tactic(auto, unfolding(crate::specs::Standing::rises))]
pub fn in_order(earlier: Record, r: Record) -> bool
    ensures { TellsOrder earlier r result }
{
    if earlier.kind != r.kind {
        return earlier.kind < r.kind;
    }
    if r.kind == DEFAULT_REALM {
        return false;
    }
    bodies_in_order(earlier, r)
}

// The unknown realm, or the default realm in a foreign record.
#[tactic(auto, unfolding(crate::specs::Standing::is_forbidden, words::specs::Realm::same_realm))]
pub fn is_forbidden(home: Realm, r: Record) -> bool
    ensures { TellsForbidden home r result }
{
    let realm = r.realm;
    if is_unknown(realm) {
        return true;
    }
    if !is_foreign(r.kind) {
        return false;
    }
    realm == home
}

// A user_obj without control.
#[tactic(auto, unfolding(crate::specs::Standing::lacks_control))]
pub fn lacks_control(r: Record) -> bool
    ensures { TellsPowerless r result }
{
    (r.kind == USER_OBJ) & (r.rights / 8 % 2 == 0)
}
