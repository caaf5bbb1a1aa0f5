// Access to tokens: which rights types need, and whether a caller has them.
#![tactic(auto)]

mod judging;
mod needs;

pub use judging::judge;
pub use needs::needed_rights;
