// Big-endian numbers, written to lent bytes.
ghost use Rattle.std.specs.Prelude.{◌≡◌, ◌+◌, ◌≤◌, length};
ghost use Rattle.words.specs.Writing.{digits, over, WritesNumber};

use words::{Number, holds};

// A number whose bytes can be written.
pub trait Store: Number {
    // Its bytes at a place; nothing is written where they have no room.
    fn store(self, bytes: &mut [u8], at: usize)
        ensures { WritesNumber Self.WIDTH (Self.value self) bytes.old at bytes.new };
}

impl Store for u16 {
    fn store(self, bytes: &mut [u8], at: usize) {
        if holds(bytes, at, 2) {
            store_two(bytes, at, self);
        }
    }
}

impl Store for u32 {
    fn store(self, bytes: &mut [u8], at: usize) {
        if holds(bytes, at, 4) {
            store_four(bytes, at, self);
        }
    }
}

impl Store for u64 {
    fn store(self, bytes: &mut [u8], at: usize) {
        if holds(bytes, at, 8) {
            store_eight(bytes, at, self);
        }
    }
}

// Two bytes that spell a number.
fn store_two(bytes: &mut [u8], at: usize, n: u16)
    requires { at + 2 ≤ length bytes.old }
    ensures { bytes.new ≡ over at (digits 2 n) bytes.old }
{
    bytes[at..at + 2].copy_from_slice(&n.to_be_bytes());
}

// The same of four bytes.
fn store_four(bytes: &mut [u8], at: usize, n: u32)
    requires { at + 4 ≤ length bytes.old }
    ensures { bytes.new ≡ over at (digits 4 n) bytes.old }
{
    bytes[at..at + 4].copy_from_slice(&n.to_be_bytes());
}

// The same of eight bytes: a realm has them twice, and is tested once.
pub(crate) fn store_eight(bytes: &mut [u8], at: usize, n: u64)
    requires { at + 8 ≤ length bytes.old }
    ensures { bytes.new ≡ over at (digits 8 n) bytes.old }
{
    bytes[at..at + 8].copy_from_slice(&n.to_be_bytes());
}

// The bytes of a number at a place; nothing is written where they have no room.
pub fn write_number<N: Store>(bytes: &mut [u8], at: usize, n: N)
    ensures { WritesNumber N.WIDTH (N.value n) bytes.old at bytes.new }
{
    n.store(bytes, at);
}
