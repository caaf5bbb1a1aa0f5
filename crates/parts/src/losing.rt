// The claims that stay of a token, by the types and the range that are given back.
ghost use Rattle.std.specs.Prelude.{◌≡◌, ◌++◌, ◌+◌, ◌-◌, ◌<◌};
ghost use Rattle.claims.specs.Types.{lacks, without};
ghost use Rattle.claims.specs.Claim.{with_range};
ghost use Rattle.parts.specs.Part.{is_whole, is_part, is_givable, bytes_before, bytes_after, types_left, Refuses, claims_in, Stays};

use claims::{Claim, covers_file};
use words::Refusal;

// The types of a set are its lowest eight bits.
const ALL: u16 = 0b1111_1111;

// What stays of a token: nothing, one claim, or the bytes before a part and those after it. Two options would have a fourth case.
#[derive(Clone, Copy)]
pub enum Kept {
    Nothing,
    One { claim: Claim },
    Two { left: Claim, right: Claim },
}

fn is_lacking(held: u16, types: u16) -> bool
    ensures { result ≡ lacks held types }
{
    let named = types & ALL;
    (held & named) != named
}

// The range is the token's own.
#[tactic(auto, unfolding(crate::specs::Part::is_whole))]
fn is_whole(held: Claim, first: u64, last: u64) -> bool
    ensures { result ≡ is_whole first last held }
{
    (first == held.first) & (last == held.last)
}

// A part may be given back by its bytes if it is inside, names all types, and none of them covers the whole file.
#[tactic(auto, unfolding(crate::specs::Part::is_part))]
fn is_part(held: Claim, types: u16, first: u64, last: u64) -> bool
    ensures { result ≡ is_part types first last held }
{
    (held.first <= first) & (last <= held.last) & (types == held.types) & !covers_file(types)
}

// The whole range, or a part that may be given back.
#[tactic(auto, unfolding(crate::specs::Part::is_givable))]
fn is_givable(held: Claim, types: u16, first: u64, last: u64) -> bool
    ensures { result ≡ is_givable types first last held }
{
    is_whole(held, first, last) || is_part(held, types, first, last)
}

// Refusal 37, or else 38.
#[tactic(auto, using(crate::proofs::Lost::type_lacking, crate::proofs::Lost::no_such_part, crate::proofs::Lost::none_refused))]
pub fn loss_refusal(held: Claim, types: u16, first: u64, last: u64) -> Option<Refusal>
    ensures { Refuses types first last held result }
{
    if is_lacking(held.types, types) {
        return Some(Refusal::TypeLacking);
    }
    if !is_givable(held, types, first, last) {
        return Some(Refusal::NoSuchPart);
    }
    None
}

// The types that are not named.
fn types_but(held: u16, types: u16) -> u16
    ensures { result ≡ without held types }
{
    let all = held & ALL;
    all - (all & types)
}

// What stays where the whole range is given back.
#[tactic(auto, using(crate::proofs::Lost::no_type, crate::proofs::Lost::some_type_lem))]
fn rest(held: Claim, types: u16) -> Kept
    ensures { claims_in result ≡ types_left types held }
{
    let kept = types_but(held.types, types);
    if kept == 0 {
        return Kept::Nothing;
    }
    Kept::One {
        claim: Claim {
            types: kept,
            ..held
        },
    }
}

fn left_of(held: Claim, first: u64) -> Claim
    requires { held.first < first }
    ensures { result ≡ with_range held held.first (first - 1) }
{
    Claim {
        last: first - 1,
        ..held
    }
}

fn right_of(held: Claim, last: u64) -> Claim
    requires { last < held.last }
    ensures { result ≡ with_range held (last + 1) held.last }
{
    Claim {
        first: last + 1,
        ..held
    }
}

// What stays on either side of a part.
#[tactic(auto, using(crate::proofs::Lost::on_neither, crate::proofs::Lost::on_the_right, crate::proofs::Lost::on_the_left, crate::proofs::Lost::on_both))]
fn remainders(held: Claim, first: u64, last: u64) -> Kept
    ensures { claims_in result ≡ bytes_before first held ++ bytes_after last held }
{
    if first <= held.first {
        if held.last <= last {
            return Kept::Nothing;
        }
        return Kept::One {
            claim: right_of(held, last),
        };
    }
    if held.last <= last {
        return Kept::One {
            claim: left_of(held, first),
        };
    }
    Kept::Two {
        left: left_of(held, first),
        right: right_of(held, last),
    }
}

// The claims that stay, the first of them under the token's own number.
#[tactic(auto, using(crate::proofs::Lost::of_whole, crate::proofs::Lost::of_other))]
pub fn stays(held: Claim, types: u16, first: u64, last: u64) -> Kept
    ensures { Stays types first last held result }
{
    if is_whole(held, first, last) {
        return rest(held, types);
    }
    remainders(held, first, last)
}
