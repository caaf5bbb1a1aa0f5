// Editing an access list: one entry put or dropped, the whole new list written to a second buffer.
#![tactic(auto)]

mod editing;
mod writing;

pub use editing::{drop_entry, put_entry};
pub use entry::Entry;
pub use words::{Fault, Refusal};
