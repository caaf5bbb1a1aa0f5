// A claim's range beside the tokens of a table: which of them bound it, and what they leave of it.
#![tactic(auto)]

mod range;

pub use range::{Range, beside, is_rival, with_range};
