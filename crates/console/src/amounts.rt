// Numbers, decimal, octal and hex.
ghost use Rattle.std.specs.Prelude.{◌≤◌, IfSome};

// Digits of a base as a number, if it fits.
pub(crate) fn digits(letters: &[u8], base: u32) -> Option<u64>
    requires low { 2 ≤ base }
    requires high { base ≤ 36 }
{
    let mut n = 0u64;
    for letter in letters {
        let digit = char::from(*letter).to_digit(base)?;
        n = n
            .checked_mul(u64::from(base))?
            .checked_add(u64::from(digit))?;
    }
    Some(n)
}

// A decimal number; the first of several digits is no zero.
fn number(word: &[u8]) -> Option<u64> {
    match word {
        [] | [b'0', _, ..] => None,
        _ => digits(word, 10),
    }
}

// A number of a type.
pub(crate) fn amount<T: TryFrom<u64>>(word: &[u8]) -> Option<T>
where
    T::Error: Drop,
{
    T::try_from(number(word)?).ok()
}

pub(crate) fn at_most(word: &[u8], most: usize) -> Option<usize>
    ensures { IfSome result (λ n. n ≤ most) }
{
    amount(word).filter(|n| *n <= most)
}

// A mode of 32 bits, which may be octal.
pub(crate) fn mode(word: &[u8]) -> Option<u32> {
    match word {
        [b'0', b'o', octal @ ..] if !octal.is_empty() => u32::try_from(digits(octal, 8)?).ok(),
        _ => amount(word),
    }
}
