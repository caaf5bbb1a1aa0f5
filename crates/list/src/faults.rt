// What is wrong with a record after the one before it, and with a list after its last record.
ghost use Rattle.std.specs.Prelude.{◌≡◌, true, eqb, Some, Ok};
ghost use Rattle.words.specs.Realm.{zero_realm};
ghost use Rattle.records.specs.Kind.{body_of};
ghost use Rattle.records.specs.Standing.{is_forbidden};
ghost use Rattle.list.specs.Fault.{fault, end_fault};
ghost use Rattle.list.specs.Walking.{mark_of, seen_of};

use records::kind::{
    ANY_OTHER, DEFAULT_REALM, FOREIGN_USER, GROUP_OBJ, MASK_OBJ, OTHER_OBJ, USER_OBJ,
};
use records::{Record, in_order, is_forbidden, lacks_control};
use words::{Fault, Realm};

// A forbidden realm in a record as it is read: where its kind has no realm it names none.
#[tactic(auto, using(records::proofs::Bodies::unbarred))]
fn is_barred(home: Realm, r: Record) -> bool
    requires { eqb (body_of r.kind).realm 0 ≡ true → r.realm ≡ zero_realm }
    ensures { result ≡ is_forbidden home r }
{
    let kind = r.kind;
    if (DEFAULT_REALM < kind) & (kind < FOREIGN_USER) {
        return false;
    }
    is_forbidden(home, r)
}

// 14, 15 or 16; none where the record, as it is read, may stand after the earlier one.
#[tactic(auto, unfolding(crate::specs::Fault::fault))]
pub(crate) fn fault_of(home: Realm, earlier: Record, r: Record) -> Option<Fault>
    requires { eqb (body_of r.kind).realm 0 ≡ true → r.realm ≡ zero_realm }
    ensures { result ≡ fault home earlier (Ok (Some r)) }
{
    if 63 < r.rights {
        return Some(Fault::RightsAbove63);
    }
    if !in_order(earlier, r) {
        return Some(Fault::OutOfOrder);
    }
    if is_barred(home, r) {
        return Some(Fault::ForbiddenRealm);
    }
    None
}

// The marks that records leave for the end of the list, a bit each: six flags cost a walk a quarter more (tried).
const USER_MARK: u8 = 1;

const GROUP_MARK: u8 = 2;

const OTHER_MARK: u8 = 4;

const MASK_MARK: u8 = 8;

// A mask_obj is wanted.
const WANTING_MARK: u8 = 16;

// A user_obj without control.
const POWERLESS_MARK: u8 = 32;

#[tactic(auto, unfolding(crate::specs::Walking::mark_of, records::specs::Kind::wants_mask))]
pub(crate) fn mark_of(r: Record) -> u8
    ensures { result ≡ mark_of r }
{
    let kind = r.kind;
    if ANY_OTHER <= kind {
        return WANTING_MARK;
    }
    if lacks_control(r) {
        return USER_MARK | POWERLESS_MARK;
    }
    if kind == USER_OBJ {
        return USER_MARK;
    }
    if kind == GROUP_OBJ {
        return GROUP_MARK;
    }
    if kind == OTHER_OBJ {
        return OTHER_MARK;
    }
    if kind == MASK_OBJ {
        return MASK_MARK;
    }
    0
}

// 17, 18 or 19; none where the list may end with these marks: all three objects, no mask_obj wanted where none is, and control.
#[tactic(auto, using(crate::proofs::Marks::object_missing, crate::proofs::Marks::mask_missing, crate::proofs::Marks::control_missing, crate::proofs::Marks::nothing_missing))]
pub(crate) fn end_fault(marks: u8) -> Option<Fault>
    ensures { result ≡ end_fault (seen_of marks) }
{
    if marks % 8 != 7 {
        return Some(Fault::ObjectMissing);
    }
    if marks / 8 % 4 == 2 {
        return Some(Fault::MaskMissing);
    }
    if marks / 32 % 2 == 1 {
        return Some(Fault::ControlMissing);
    }
    None
}
