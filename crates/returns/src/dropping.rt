// Dropping a host.
ghost use Rattle.std.specs.Prelude.{◌≡◌, true, ◌+◌, ◌≤◌, length};
ghost use Rattle.table.specs.Layout.{width};
ghost use Rattle.table.specs.Form.{well_formed};
ghost use Rattle.returns.specs.DropHost.{is_hosts, Drops};
ghost use Rattle.returns.specs.Slots.{Frees, FreesAll};

use store::write_slot;
use table::{Refusal, Slot, WIDTH, read_slot, well_formed};

#[tactic(auto, unfolding(crate::specs::DropHost::is_hosts))]
fn is_hosts(slot: Slot, host: u16) -> bool
    ensures { result ≡ is_hosts host slot }
{
    match slot {
        Slot::Free => false,
        Slot::Held { number: _, claim } => claim.host == host,
    }
}

// A slot of the host becomes free; whether it was the host's.
fn free_slot(table: &mut [u8], at: usize, host: u16) -> bool
    requires { at + width ≤ length table.old }
    ensures { Frees table.old at host result table.new }
{
    if !is_hosts(read_slot(&table[at..at + WIDTH]), host) {
        return false;
    }
    write_slot(&mut table[at..at + WIDTH], Slot::Free);
    true
}

// By the places of the slots: nothing is known of what is written through `chunks_exact_mut`.
fn free_all(table: &mut [u8], host: u16) -> u64
    requires { well_formed table.old ≡ true }
    ensures { FreesAll table.old host result table.new }
{
    let n = table.len() / WIDTH - 1;
    let mut freed = 0;
    for i in 0..n {
        freed += free_slot(table, WIDTH * (i + 1), host) as u64;
    }
    freed
}

// The host's slots become free; the answer is how many they were.
pub fn drop_host(table: &mut [u8], host: u16) -> Result<u64, Refusal>
    ensures { Drops table.old host result table.new }
{
    if !well_formed(table) {
        return Err(Refusal::NotWellFormed);
    }
    if host == 0 {
        return Err(Refusal::Malformed);
    }
    Ok(free_all(table, host))
}
