// The calls that give tokens back: return, drop host.
#![tactic(auto)]

mod dropping;
mod returning;

pub use dropping::drop_host;
pub use returning::give_back;
