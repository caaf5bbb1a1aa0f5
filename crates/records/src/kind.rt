// The kinds of records: numbers, since a record of any byte has its place in the order and its answer (`in_order`, `is_forbidden`), and
// an enum would shut most bytes out.
ghost use Rattle.std.specs.Prelude.{◌≡◌};
ghost use Rattle.records.specs.Kind.{is_foreign};

pub const DEFAULT_REALM: u8 = 1;

pub const USER_OBJ: u8 = 2;

pub const GROUP_OBJ: u8 = 3;

pub const OTHER_OBJ: u8 = 4;

pub const MASK_OBJ: u8 = 5;

pub const ANY_OTHER: u8 = 6;

pub const USER: u8 = 7;

pub const GROUP: u8 = 8;

pub const FOREIGN_USER: u8 = 9;

pub const FOREIGN_GROUP: u8 = 10;

pub const FOREIGN_OTHER: u8 = 11;

// It names a realm other than the default one.
#[tactic(auto, using(crate::proofs::Bodies::foreign_told_lem))]
pub(crate) fn is_foreign(kind: u8) -> bool
    ensures { result ≡ is_foreign kind }
{
    (FOREIGN_USER <= kind) & (kind <= FOREIGN_OTHER)
}
