// The rights that types need.
ghost use Rattle.std.specs.Prelude.{◌≡◌, if◌then◌else◌};
ghost use Rattle.std.specs.Int.Bits.{bit_or};
ghost use Rattle.rights.specs.Right.{write, insert, delete};
ghost use Rattle.access.specs.Needs.{Needs};

use rights::right::{CONTROL, DELETE, INSERT, READ, WRITE};

// The first type of each family; status write; the second type of the others.
const NEED_READ: u16 = 0b0101_0101;

const NEED_CONTROL: u16 = 0b0000_1000;

const NEED_WRITE: u16 = 0b1010_0010;

fn right_if(needed: bool, right: u8) -> u8
    ensures { result ≡ (if needed then right else 0) }
{
    if needed { right } else { 0 }
}

// On a directory, what needs write needs insert and delete instead.
fn write_right(dir: bool) -> u8
    ensures { result ≡ (if dir then bit_or insert delete else write) }
{
    if dir { INSERT | DELETE } else { WRITE }
}

// The rights that some of the types need.
pub fn needed_rights(types: u16, dir: bool) -> u8
    ensures { Needs types dir result }
{
    right_if(types & NEED_READ != 0, READ)
        | right_if(types & NEED_CONTROL != 0, CONTROL)
        | right_if(types & NEED_WRITE != 0, write_right(dir))
}
