// The tokens of a table in words.
use crate::answer::{Answer, Said};
use crate::names::{Names, TYPES};
use crate::texts::print_line;
use claims::{Claim, FileId};
use std::fmt;
use table::{Slot, WIDTH, read_slot, well_formed};
use words::Refusal;

// A token's number, its host and its types.
#[derive(Clone, Copy)]
pub struct Token {
    pub number: u64,
    pub host: u16,
    pub types: u16,
}

impl fmt::Display for Token {
    fn fmt<W: fmt::Write>(&self, f: &mut fmt::Formatter<W>) -> fmt::Result {
        let number = self.number;
        let host = self.host;
        let types = Names {
            set: self.types,
            names: &TYPES,
            before: ", ",
        };
        write!(f, "number {number}, host {host}{types}")
    }
}

fn print_token(number: u64, claim: Claim) {
    let token = Token {
        number,
        host: claim.host,
        types: claim.types,
    };
    let FileId { hi, lo } = claim.file;
    let first = claim.first;
    let last = claim.last;
    print_line(&format_args!("{token}, file {hi:016x}{lo:08x}, bytes {first} to {last}"));
}

pub(crate) fn held(table: &[u8]) -> Said {
    if !well_formed(table) {
        return Err(Refusal::NotWellFormed.into());
    }
    let mut tokens = 0u64;
    for slot in table.chunks_exact(WIDTH).skip(1) {
        if let Slot::Held { number, claim } = read_slot(slot) {
            print_token(number, claim);
            tokens = tokens.saturating_add(1);
        }
    }
    Ok(Answer::Number(tokens))
}
