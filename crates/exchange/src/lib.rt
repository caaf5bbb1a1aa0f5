// What C hands over and what it is answered, as the calls have them.
#![tactic(auto)]

mod answer;
mod given;

pub use answer::{Answer, Told};
pub use given::{Caller, Claim, Entry, File, access_of};
