// Numbers and realms written to lent bytes, big-endian.
#![tactic(auto)]

mod number;
mod realm;

pub use number::{Store, write_number};
pub use realm::write_realm;
