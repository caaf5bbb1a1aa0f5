// The audit of a table: well formed, its numbers differ, nothing conflicts.
#![tactic(auto)]

mod auditing;

pub use auditing::audit;
