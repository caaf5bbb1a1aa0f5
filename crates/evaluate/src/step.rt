// The seven steps, in the order of the paper, by number: one `<` passes a record over with all later steps, and one that
// serves none too.
pub(crate) const OWNER: u8 = 1;

pub(crate) const USER: u8 = 2;

pub(crate) const GROUP: u8 = 3;

pub(crate) const OTHER: u8 = 4;

pub(crate) const FOREIGN_OTHER: u8 = 5;

pub(crate) const ANY_OTHER: u8 = 6;

// No record serves it.
pub(crate) const NOTHING: u8 = 7;

// What a record that serves none is given.
pub(crate) const NONE: u8 = 8;
