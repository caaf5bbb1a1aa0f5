// What is wrong with a line that is not understood, or with its file.
use crate::command::Command;
use std::fmt;

#[derive(Clone, Copy)]
pub enum Mistake {
    Arguments,
    Long,
    UnknownCommand,
    Miscounted(Command),
    Bytes,
    Slots,
    NoEdit,
    Kept,
    Room,
    Caller,
    File,
    Guard,
    Mode,
    Words,
    Shown,
    Host,
    Types,
    Claim,
    Return,
    Entry,
    NotOpened,
    NotRead,
    NotWritten,
    NewIsThere,
    NotRegular,
    NoTable,
}

impl Mistake {
    fn text(self) -> &'static str {
        match self {
            Mistake::Arguments => {
                "the console takes no arguments: it reads commands from standard input"
            }
            Mistake::Long => "a line has at most 16384 characters",
            Mistake::UnknownCommand => "unknown command",
            Mistake::Miscounted(_) => "wrong number of words: ",
            Mistake::Bytes => "BYTES are hex digits, two for each, or -",
            Mistake::Slots => "table N, up to 1597 slots, or table hex BYTES",
            Mistake::NoEdit => "no edit has written a list",
            Mistake::Kept => "LENGTH is a number up to 16384",
            Mistake::Room => "BYTES is a number up to 16384",
            Mistake::Caller => "REALM is 32 hex digits, USER and each GROUP a number of 32 bits",
            Mistake::File => "OWNER and GROUP are numbers of 32 bits, then file or dir",
            Mistake::Guard => "guard list, or guard mode REALM MODE",
            Mistake::Mode => "REALM is 32 hex digits, MODE a number of 32 bits",
            Mistake::Words => "words on, or words off",
            Mistake::Shown => "show table, show list, or show out LENGTH, up to 16384",
            Mistake::Host => "HOST is a number up to 65535",
            Mistake::Types => "TYPES is a number up to 65535",
            Mistake::Claim =>
                "HOST and TYPES are numbers up to 65535, FILE is 24 hex digits, FIRST and LAST are numbers of 64 bits",
            Mistake::Return => "HOST and TYPES are numbers up to 65535, NUMBER is one of 64 bits",
            Mistake::Entry =>
                "KIND and RIGHTS are numbers up to 255, REALM is 32 hex digits or - where the kind has none, ID is a number of 32 bits",
            Mistake::NotOpened => "FILE cannot be opened",
            Mistake::NotRead => "FILE cannot be read, or has more than 65536 bytes",
            Mistake::NotWritten => "FILE cannot be written",
            Mistake::NewIsThere => "FILE.new is there already",
            Mistake::NotRegular => "FILE is no regular file",
            Mistake::NoTable => "there is no table to save",
        }
    }
}

impl fmt::Display for Mistake {
    fn fmt<W: fmt::Write>(&self, f: &mut fmt::Formatter<W>) -> fmt::Result {
        f.write_str(self.text())?;
        match self {
            Mistake::Miscounted(command) => f.write_str(command.usage()),
            _ => Ok(()),
        }
    }
}
