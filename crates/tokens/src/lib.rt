// The calls that take tokens, access apart: ask, grant, and grant with the widest range.
#![tactic(auto)]

mod asking;
mod granting;

pub use asking::ask;
pub use granting::{Granted, grant, grant_widest};
