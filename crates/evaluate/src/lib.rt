// Evaluating an access list: one pass makes its checks and finds what it gives a caller on a file.
#![tactic(auto)]

mod asking;
mod evaluation;
mod pass;
mod step;
mod steps;
mod tally;
mod verdict;

pub use asking::{Caller, File, is_in_group};
pub use evaluation::{Found, MOST_GROUPS, evaluate};
pub use verdict::check_list;
