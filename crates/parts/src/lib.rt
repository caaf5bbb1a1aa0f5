// What a return of types and a range leaves of a token's claim.
#![tactic(auto)]

mod losing;

pub use losing::{Kept, loss_refusal, stays};
