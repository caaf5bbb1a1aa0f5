// One record of an access list: its kind, how it is read, and what lets it stand.
#![tactic(auto)]

pub mod kind;
mod records;
mod standing;

pub use records::{Record, read_record};
pub use standing::{bodies_in_order, in_order, is_forbidden, lacks_control};
