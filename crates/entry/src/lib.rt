// An entry of an edit: its record, where that stands in a list, and what the edit comes to before a byte is written.
#![tactic(auto)]

mod entries;
mod judging;
mod planning;
mod spot;

pub use entries::Entry;
pub use planning::{Plan, plan_drop, plan_put};
pub use spot::Spot;
pub use words::{Fault, Refusal};
