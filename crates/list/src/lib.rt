// The access list in bytes: the walk from record to record, with all of a list's checks on the way.
#![tactic(auto)]

mod faults;
mod walk;

pub use records::{
    Record, bodies_in_order, in_order, is_forbidden, kind, lacks_control, read_record,
};
pub use walk::{LONGEST, Walk};
pub use words::{Fault, Refusal};
