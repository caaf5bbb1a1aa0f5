// Rights: what a list or a mode gives a caller on a file, and the record that decided.
#![tactic(auto)]

mod access;
mod deciding;
mod decision;
mod guard;
mod mode;
pub mod right;

pub use access::Access;
pub use deciding::decide;
pub use decision::{Decision, rights};
pub use evaluate::Found;
pub use guard::Guard;
