// Answers held against what was expected.
use crate::answer::Answer;
use crate::console::Console;
use crate::hexes;
use crate::spaced::trimmed;
use crate::texts::{print, write};

// How many answers were as expected, and how many not.
#[derive(Clone, Copy)]
pub struct Score {
    pub met: u64,
    pub missed: u64,
}

impl Score {
    pub(crate) fn total(self) -> Answer {
        let Score { met, missed } = self;
        Answer::Score { met, missed }
    }

    fn count(&mut self, met: bool) {
        if met {
            self.met = self.met.wrapping_add(1);
        } else {
            self.missed = self.missed.wrapping_add(1);
        }
    }
}

impl Console {
    fn is_last(&self, wanted: &[u8]) -> bool {
        match self.shown(&self.last) {
            Some(bytes) => hexes::is_spelled(bytes, wanted),
            None => self.line_of(&self.last).as_str().as_bytes() == wanted,
        }
    }

    // Holds the last answer against the rest of the line, after its `=`: nothing is said where they agree.
    pub(crate) fn expect(&mut self, line: &[u8], number: u64) {
        let wanted = trimmed(trimmed(line).strip_prefix(b"=").unwrap_or(line));
        let met = self.is_last(wanted);
        self.score.count(met);
        if !met {
            print(&format_args!("line {number}: wanted "));
            write(wanted);
            write(b", came ");
            self.tell(&self.last);
        }
    }
}
