// The token table in bytes: a slot read, and whether a table is well formed.
#![tactic(auto)]

mod form;
mod slot;

pub use form::{is_length, is_slot, opens, well_formed};
pub use slot::{Slot, after_header, read_slot};
pub use words::Refusal;

// A slot takes so many bytes, and so does the header.
pub const WIDTH: usize = 41;

// Where the next number stands in the header.
pub const NEXT: usize = 33;

// The highest set of types.
pub const LIMIT: u16 = 255;
