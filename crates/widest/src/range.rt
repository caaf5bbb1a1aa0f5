// A claim's range, and what a token leaves of it.
ghost use Rattle.std.specs.Prelude.{◌≡◌};
ghost use Rattle.widest.specs.Widest.{later, earlier, Ranges, TellsRival, Leaves};

use claims::{Claim, conflict};

// First and last byte are both included.
#[derive(Clone, Copy)]
pub struct Range {
    pub first: u64,
    pub last: u64,
}

impl Range {
    pub const ALL: Range = Range {
        first: 0,
        last: u64::MAX,
    };
}

// The same claim over another range.
pub fn with_range(claim: Claim, range: Range) -> Claim
    ensures { Ranges claim range result }
{
    Claim {
        first: range.first,
        last: range.last,
        ..claim
    }
}

// A token that is in the way of the claim over all bytes.
#[tactic(auto, unfolding(crate::specs::Widest::is_rival))]
pub fn is_rival(held: Claim, claim: Claim) -> bool
    ensures { TellsRival held claim result }
{
    conflict(held, with_range(claim, Range::ALL)) != 0
}

#[tactic(auto, unfolding(crate::specs::Widest::later))]
fn later(a: u64, b: u64) -> u64
    ensures { result ≡ later a b }
{
    a.max(b)
}

#[tactic(auto, unfolding(crate::specs::Widest::earlier))]
fn earlier(a: u64, b: u64) -> u64
    ensures { result ≡ earlier a b }
{
    a.min(b)
}

// A token's bytes leave the side on which the asked ones are, and all where they meet.
pub fn beside(range: Range, held: Claim, asked: Claim) -> Range
    ensures { Leaves asked range held result }
{
    if held.last < asked.first {
        return Range {
            first: later(range.first, held.last + 1),
            ..range
        };
    }
    if asked.last < held.first {
        return Range {
            last: earlier(range.last, held.first - 1),
            ..range
        };
    }
    range
}
