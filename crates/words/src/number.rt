// Big-endian numbers, read from lent bytes.
ghost use Rattle.std.specs.Prelude.{◌≡◌, ℕ, ◌+◌, ◌≤◌, length};
ghost use Rattle.words.specs.Number.{number, part, TellsWithin, StandsForNone, ReadsNumber};

// A number of so many bytes.
pub trait Number: Copy {
    ghost WIDTH: { ℕ };

    const WIDTH: usize;

    ghost value: { Self → ℕ };

    // What stands for a number whose bytes are not all there.
    fn zero() -> Self
        ensures { StandsForNone (value result) };

    // The number at a place; zero where its bytes are not all there.
    fn whole(bytes: &[u8], at: usize) -> Self
        ensures { ReadsNumber WIDTH bytes.now at (value result) };
}

impl Number for u16 {
    ghost WIDTH = { 2 };

    const WIDTH: usize = 2;

    ghost value = { λ n. n };

    fn zero() -> u16 {
        0
    }

    fn whole(bytes: &[u8], at: usize) -> u16 {
        if holds(bytes, at, Self::WIDTH) {
            two(bytes, at)
        } else {
            Self::zero()
        }
    }
}

impl Number for u32 {
    ghost WIDTH = { 4 };

    const WIDTH: usize = 4;

    ghost value = { λ n. n };

    fn zero() -> u32 {
        0
    }

    fn whole(bytes: &[u8], at: usize) -> u32 {
        if holds(bytes, at, Self::WIDTH) {
            four(bytes, at)
        } else {
            Self::zero()
        }
    }
}

impl Number for u64 {
    ghost WIDTH = { 8 };

    const WIDTH: usize = 8;

    ghost value = { λ n. n };

    fn zero() -> u64 {
        0
    }

    fn whole(bytes: &[u8], at: usize) -> u64 {
        if holds(bytes, at, Self::WIDTH) {
            eight(bytes, at)
        } else {
            Self::zero()
        }
    }
}

// The number that two bytes spell.
fn two(bytes: &[u8], at: usize) -> u16
    requires { at + 2 ≤ length bytes.now }
    ensures { result ≡ number (part at 2 bytes.now) }
{
    u16::from_be_bytes([bytes[at], bytes[at + 1]])
}

// The same of four bytes.
fn four(bytes: &[u8], at: usize) -> u32
    requires { at + 4 ≤ length bytes.now }
    ensures { result ≡ number (part at 4 bytes.now) }
{
    u32::from_be_bytes([bytes[at], bytes[at + 1], bytes[at + 2], bytes[at + 3]])
}

// The same of eight bytes: a realm has them twice, and is tested once.
pub(crate) fn eight(bytes: &[u8], at: usize) -> u64
    requires { at + 8 ≤ length bytes.now }
    ensures { result ≡ number (part at 8 bytes.now) }
{
    u64::from_be_bytes([
        bytes[at],
        bytes[at + 1],
        bytes[at + 2],
        bytes[at + 3],
        bytes[at + 4],
        bytes[at + 5],
        bytes[at + 6],
        bytes[at + 7],
    ])
}

// All bytes of a width at a place are there.
pub fn holds(bytes: &[u8], at: usize, width: usize) -> bool
    ensures { TellsWithin width bytes.now at result }
{
    let n = bytes.len();
    if n < width {
        return false;
    }
    at <= n - width
}

// The number at a place; 0 where its bytes are not all there.
pub fn number_at<N: Number>(bytes: &[u8], at: usize) -> N
    ensures { ReadsNumber N.WIDTH bytes.now at (N.value result) }
{
    N::whole(bytes, at)
}
