// What a command is answered.
use crate::command::Command;
use crate::mistake::Mistake;
use evaluate::Found;
use std::fmt;
use tokens::Granted;
use words::Refusal;

#[derive(Clone, Copy)]
pub enum Answer {
    // Before the first command.
    Nothing,
    Done,
    // With a length, a count or a token's number.
    Number(u64),
    // The rights that types need.
    Needed(u8),
    // A token of the widest range.
    Granted(Granted),
    // The rights, and the deciding record by its place and length.
    Rights(Found),
    Audited(bool),
    // How a command's line is written.
    Usage(Command),
    // How many answers were as expected, and how many not.
    Score { met: u64, missed: u64 },
    // What the console remembers, and tells itself: bytes in hex, or the line that would set it.
    Table,
    List,
    Out(usize),
    Caller,
    File,
    Guard,
}

// Why a command was not done.
#[derive(Clone, Copy)]
pub enum Failure {
    Mistake(Mistake),
    Refused(Refusal),
}

pub type Said = Result<Answer, Failure>;

impl From<Mistake> for Failure {
    fn from(mistake: Mistake) -> Failure {
        Failure::Mistake(mistake)
    }
}

impl From<Refusal> for Failure {
    fn from(refusal: Refusal) -> Failure {
        Failure::Refused(refusal)
    }
}

impl Answer {
    pub(crate) fn length(bytes: &[u8]) -> Answer {
        Answer::Number(bytes.len() as u64)
    }
}

fn done<W: fmt::Write>(f: &mut fmt::Formatter<W>, n: u64) -> fmt::Result {
    write!(f, "done {n}")
}

fn done_with<W: fmt::Write>(f: &mut fmt::Formatter<W>, n: u64, a: u64, b: u64) -> fmt::Result {
    write!(f, "done {n} {a} {b}")
}

// With the place for 10 to 19, and for 35 the true count.
fn refused<W: fmt::Write>(f: &mut fmt::Formatter<W>, refusal: Refusal) -> fmt::Result {
    let number = refusal.number();
    match refusal.value() {
        Some(value) => write!(f, "refused {number} {value}"),
        None => write!(f, "refused {number}"),
    }
}

// What the console tells itself is nothing here.
impl fmt::Display for Answer {
    fn fmt<W: fmt::Write>(&self, f: &mut fmt::Formatter<W>) -> fmt::Result {
        match self {
            Answer::Done => f.write_str("done"),
            Answer::Number(n) => done(f, *n),
            Answer::Needed(rights) => done(f, u64::from(*rights)),
            Answer::Granted(Granted { number, range }) => done_with(
                f,
                *number,
                range.first,
                range.last,
            ),
            Answer::Rights(
                Found {
                    rights,
                    start,
                    size,
                },
            ) => done_with(f, u64::from(*rights), *start as u64, *size as u64),
            Answer::Audited(true) => f.write_str("yes"),
            Answer::Audited(false) => f.write_str("no"),
            Answer::Usage(command) => f.write_str(command.usage()),
            Answer::Score { met, missed } => write!(f, "{met} as expected, {missed} not"),
            _ => Ok(()),
        }
    }
}

impl fmt::Display for Failure {
    fn fmt<W: fmt::Write>(&self, f: &mut fmt::Formatter<W>) -> fmt::Result {
        match self {
            Failure::Mistake(mistake) => write!(f, "error {mistake}"),
            Failure::Refused(refusal) => refused(f, *refusal),
        }
    }
}
