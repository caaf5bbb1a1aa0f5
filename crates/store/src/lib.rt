// What is written into a table's bytes: a slot, and a fresh table.
#![tactic(auto)]

mod filling;
mod storing;

pub use filling::fill;
pub use storing::write_slot;
