// What a token or a request claims, and which types of one claim conflict with another.
#![tactic(auto)]

mod claim;
mod rule;

pub use claim::{Claim, FileId, is_malformed, is_unfit};
pub use rule::{conflict, covers_file};
