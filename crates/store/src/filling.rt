// A fresh table.
ghost use Rattle.table.specs.Fill.{Fills};

use table::{NEXT, Refusal, is_length};
use writes::write_number;

// All slots free, next 1; the old bytes are not looked at.
pub fn fill(table: &mut [u8]) -> Result<(), Refusal>
    ensures { Fills table.old result table.new }
{
    if !is_length(table.len()) {
        return Err(Refusal::NotWellFormed);
    }
    table.fill(0);
    table[0] = 2;
    write_number(table, NEXT, 1u64);
    Ok(())
}
