// A slot, written field by field.
ghost use Rattle.std.specs.Prelude.{◌≡◌, ◌≤◌, length};
ghost use Rattle.words.specs.Writing.{over};
ghost use Rattle.table.specs.Layout.{width, file_bytes, field_bytes, WritesSlot};
ghost use Rattle.store.specs.Pieces.{head_bytes, rest_bytes};

use claims::{Claim, FileId};
use table::{Slot, WIDTH};
use writes::write_number;

fn write_head(slot: &mut [u8], kind: u8, types: u16, host: u16)
    requires { width ≤ length slot.old }
    ensures { slot.new ≡ over 0 (head_bytes kind types host) slot.old }
{
    slot[0] = kind;
    write_number(slot, 1, types);
    write_number(slot, 3, host);
}

fn write_file(slot: &mut [u8], file: FileId)
    requires { width ≤ length slot.old }
    ensures { slot.new ≡ over 5 (file_bytes file) slot.old }
{
    write_number(slot, 5, file.hi);
    write_number(slot, 13, file.lo);
}

fn write_rest(slot: &mut [u8], first: u64, last: u64, number: u64)
    requires { width ≤ length slot.old }
    ensures { slot.new ≡ over 17 (rest_bytes first last number) slot.old }
{
    write_number(slot, 17, first);
    write_number(slot, 25, last);
    write_number(slot, 33, number);
}

fn write_fields(slot: &mut [u8], kind: u8, number: u64, claim: Claim)
    requires { width ≤ length slot.old }
    ensures { slot.new ≡ over 0 (field_bytes kind number claim) slot.old }
{
    let file = claim.file;
    write_head(slot, kind, claim.types, claim.host);
    write_file(slot, file);
    write_rest(slot, claim.first, claim.last, number);
}

// The bytes of a slot, written over the first of those lent; nothing is written where they have no room.
pub fn write_slot(slot: &mut [u8], value: Slot)
    ensures { WritesSlot value slot.old slot.new }
{
    if slot.len() < WIDTH {
        return;
    }
    match value {
        Slot::Free => write_fields(
            slot,
            0,
            0,
            Claim {
                types: 0,
                host: 0,
                file: FileId { hi: 0, lo: 0 },
                first: 0,
                last: 0,
            },
        ),
        Slot::Held { number, claim } => write_fields(slot, 1, number, claim),
    }
}
