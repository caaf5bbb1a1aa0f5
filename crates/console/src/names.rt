// The names of token types, of rights and of kinds of record, typed and printed.
use crate::amounts::amount;
use std::fmt;

pub(crate) const TYPES: [&str; 8] = [
    "data read",
    "data write",
    "status read",
    "status write",
    "lock read",
    "lock write",
    "open shared",
    "open exclusive",
];

pub(crate) const RIGHTS: [&str; 6] = ["read", "write", "execute", "control", "insert", "delete"];

// The letters of the rights.
const LETTERS: [&str; 6] = ["r", "w", "x", "c", "i", "d"];

// Each at the place of its number, from 1 on.
const KINDS: [&str; 12] = [
    "unknown",
    "default_realm",
    "user_obj",
    "group_obj",
    "other_obj",
    "mask_obj",
    "any_other",
    "user",
    "group",
    "foreign_user",
    "foreign_group",
    "foreign_other",
];

// These letters are a name, typed as one word: '-' or '_' stands where the name has ' ' or '_'.
fn is_name(letters: &[u8], name: &str) -> bool {
    letters.len() == name.len()
        && letters.iter().zip(name.as_bytes()).all(|(typed, letter)| match letter {
            b'_' | b' ' => matches!(typed, b'-' | b'_'),
            _ => typed == letter,
        })
}

// Which of some names this one is.
fn place_among(name: &[u8], names: &[&str]) -> Option<usize> {
    names.iter().position(|known| is_name(name, known))
}

// A set with the bit of a place, which is not there yet.
fn joined(set: u8, place: usize) -> Option<u8> {
    let bit = 1u8.checked_shl(u32::try_from(place).ok()?)?;
    (set & bit == 0).then_some(set | bit)
}

// The set of the names that a word joins, each of them once.
fn set_in(word: &[u8], names: &[&str]) -> Option<u8> {
    let mut set = 0;
    for name in word.split(|letter| matches!(letter, b'+' | b',' | b'|')) {
        set = joined(set, place_among(name, names)?)?;
    }
    Some(set)
}

// The rights of letters; six dashes are none.
fn letters_in(word: &[u8]) -> Option<u8> {
    let mut set = 0;
    for letter in word {
        if *letter != b'-' {
            set = joined(set, place_among(&[*letter], &LETTERS)?)?;
        }
    }
    (set != 0 || word.len() == 6).then_some(set)
}

// Types, as a number or by name.
pub(crate) fn types_in(word: &[u8]) -> Option<u16> {
    amount(word).or(set_in(word, &TYPES).map(u16::from))
}

// Rights, as a number, by letters or by name.
pub(crate) fn rights_in(word: &[u8]) -> Option<u8> {
    amount(word).or(letters_in(word)).or(set_in(word, &RIGHTS))
}

fn kind_named(name: &[u8]) -> Option<u8> {
    match place_among(name, &KINDS)? {
        0 => None,
        kind => u8::try_from(kind).ok(),
    }
}

// A kind, as a number or by name.
pub(crate) fn kind_in(word: &[u8]) -> Option<u8> {
    amount(word).or(kind_named(word))
}

pub(crate) fn kind_name(kind: u8) -> &'static str {
    KINDS.get(usize::from(kind)).copied().unwrap_or("")
}

// The names of a set, the lowest bit's first, with what stands before the first.
#[derive(Clone, Copy)]
pub struct Names<'a> {
    pub set: u16,
    pub names: &'a [&'static str],
    pub before: &'static str,
}

impl fmt::Display for Names<'_> {
    fn fmt<W: fmt::Write>(&self, f: &mut fmt::Formatter<W>) -> fmt::Result {
        let mut gap = self.before;
        let mut set = self.set;
        for name in self.names {
            if set % 2 == 1 {
                f.write_str(gap)?;
                f.write_str(name)?;
                gap = ", ";
            }
            set /= 2;
        }
        Ok(())
    }
}

// The letters of rights, '-' where one is missing.
#[derive(Clone, Copy)]
pub struct Letters(pub u8);

impl fmt::Display for Letters {
    fn fmt<W: fmt::Write>(&self, f: &mut fmt::Formatter<W>) -> fmt::Result {
        let mut rights = self.0;
        for letter in LETTERS {
            f.write_str(if rights % 2 == 1 { letter } else { "-" })?;
            rights /= 2;
        }
        Ok(())
    }
}
