// Which types of one claim conflict with another.
ghost use Rattle.std.specs.Prelude.{◌≡◌};
ghost use Rattle.claims.specs.Rule.{overlaps, Conflicts, TellsCover};
ghost use Rattle.claims.specs.Mask.{against, reach};

use crate::claim::Claim;

// The first types of the families, and the second ones.
const FIRSTS: u16 = 0b0101_0101;

const SECONDS: u16 = 0b1010_1010;

const ALL: u16 = 0b1111_1111;

// Status and open.
const WHOLE_FILE: u16 = 0b1100_1100;

#[tactic(auto, unfolding(crate::specs::Rule::overlaps))]
fn overlap(a: Claim, b: Claim) -> bool
    ensures { result ≡ overlaps a b }
{
    (a.first <= b.last) & (b.first <= a.last)
}

// The types that conflict by family with a type of the set.
fn against_types(types: u16) -> u16
    ensures { result ≡ against types }
{
    let second = types & SECONDS;
    ((types & FIRSTS) * 2) | (second | (second / 2))
}

// The types that conflict whatever the range, and where ranges overlap all of them.
fn reached(overlapping: bool) -> u16
    ensures { result ≡ reach overlapping }
{
    if overlapping { ALL } else { WHOLE_FILE }
}

// The conflicting types of the first claim.
pub fn conflict(a: Claim, b: Claim) -> u16
    ensures { Conflicts a b result }
{
    if a.host == b.host {
        return 0;
    }
    if a.file != b.file {
        return 0;
    }
    (a.types & against_types(b.types)) & reached(overlap(a, b))
}

// Some type of the set covers the whole file.
pub fn covers_file(types: u16) -> bool
    ensures { TellsCover types result }
{
    (types & WHOLE_FILE) != 0
}
