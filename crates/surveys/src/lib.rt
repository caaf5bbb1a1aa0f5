// One scan of a table for a claim: its form, what is in the way, room; and, if wanted, the widest range.
#![tactic(auto)]

mod scan;
mod wide;

pub use scan::{Seen, survey};
pub use wide::{SeenWide, survey_wide};
