// Returning types of a token.
ghost use Rattle.std.specs.Prelude.{◌≡◌, true, false, ◌+◌, ◌≤◌, ◌<◌, length, position};
ghost use Rattle.claims.specs.Types.{lacks};
ghost use Rattle.table.specs.Layout.{width, count, table_of};
ghost use Rattle.table.specs.Form.{well_formed};
ghost use Rattle.returns.specs.Return.{is_of, keeps, Returns};
ghost use Rattle.returns.specs.Slots.{LosesFrom, Loses};

use claims::{Claim, is_unfit};
use store::write_slot;
use table::{LIMIT, Refusal, Slot, WIDTH, after_header, read_slot, well_formed};

#[tactic(auto, unfolding(crate::specs::Return::is_of))]
fn is_of(slot: Slot, host: u16, number: u64) -> bool
    ensures { result ≡ is_of host number slot }
{
    match slot {
        Slot::Free => false,
        Slot::Held {
            number: given,
            claim,
        } => (given == number) & (claim.host == host),
    }
}

// The lowest slot with the number and host.
fn find(table: &[u8], host: u16, number: u64) -> Option<usize>
    ensures { result ≡ position (is_of host number) (table_of table.now).slots }
{
    for (i, slot) in after_header(table).chunks_exact(WIDTH).enumerate() {
        if is_of(read_slot(slot), host, number) {
            return Some(i);
        }
    }
    None
}

// The token without the types; with none left the slot is free.
#[tactic(auto, using(crate::proofs::Returned::fewer, crate::proofs::Returned::nothing_left, crate::proofs::Returned::some_left))]
fn without_types(number: u64, held: Claim, types: u16) -> Slot
    requires { (held.types ≤ 255) × (types ≤ 255) × (lacks held.types types ≡ false) }
    ensures { result ≡ keeps types number held }
{
    let kept = held.types - types;
    if kept == 0 {
        return Slot::Free;
    }
    Slot::Held {
        number,
        claim: Claim {
            types: kept,
            ..held
        },
    }
}

// A token's types, at its place in the bytes.
fn lose_from(
    table: &mut [u8],
    at: usize,
    number: u64,
    held: Claim,
    types: u16,
) -> Result<(), Refusal>
    requires { (at + width ≤ length table.old) × (held.types ≤ 255) × (types ≤ 255) }
    ensures { LosesFrom table.old at number held types result table.new }
{
    if (held.types & types) != types {
        return Err(Refusal::TypeLacking);
    }
    write_slot(
        &mut table[at..at + WIDTH],
        without_types(number, held, types),
    );
    Ok(())
}

// The types of the token in the slot at i.
fn lose(table: &mut [u8], i: usize, types: u16) -> Result<(), Refusal>
    requires { (well_formed table.old ≡ true) × (i < count table.old) × (types ≤ 255) }
    ensures { Loses table.old i types result table.new }
{
    let at = WIDTH * (i + 1);
    match read_slot(&table[at..at + WIDTH]) {
        Slot::Free => Err(Refusal::NoSuchToken),
        Slot::Held {
            number,
            claim: held,
        } => lose_from(table, at, number, held, types),
    }
}

// The lowest slot with the number and host loses the types; with none left it is free.
pub fn give_back(table: &mut [u8], host: u16, number: u64, types: u16) -> Result<(), Refusal>
    ensures { Returns table.old host number types result table.new }
{
    if !well_formed(table) {
        return Err(Refusal::NotWellFormed);
    }
    if is_unfit(host, types, LIMIT) {
        return Err(Refusal::Malformed);
    }
    let Some(i) = find(table, host, number) else {
        return Err(Refusal::NoSuchToken);
    };
    lose(table, i, types)
}
