// The console: its buffers, what it remembers from line to line, and the answer to each line.
use crate::answer::{Answer, Said};
use crate::asked::Asked;
use crate::command::Command;
use crate::expecting::Score;
use crate::helping::help;
use crate::holding::held;
use crate::listing::records;
use crate::meaning::mean;
use crate::mistake::Mistake;
use crate::output::Output;
use crate::reading::{LONGEST, Letters, next_line};
use crate::showing::{caller_line, file_line, guard_line, show};
use crate::spaced::{count, word};
use crate::texts::{Text, print_line, text};
use crate::{files, hexes};
use arrayvec::ArrayVec;
use std::rt::Files;

pub type Table = ArrayVec<u8, 65536>;

#[derive(Drop)]
pub struct Console {
    pub table: Table,
    pub asked: Asked,
    pub out: Output,
    // The last answer.
    pub last: Said,
    pub score: Score,
    // Whether each answer is followed by its meaning.
    pub words: bool,
}

// The command of a line; none where there is no word, or a '#' at the beginning.
fn command_of(line: &[u8]) -> Result<Option<Command>, Mistake> {
    if LONGEST < line.len() {
        return Err(Mistake::Long);
    }
    match word(line, 0) {
        [] | [b'#', ..] => Ok(None),
        name => {
            let command = Command::try_from(name)?;
            if !command.takes(count(line)) {
                return Err(Mistake::Miscounted(command));
            }
            Ok(Some(command))
        }
    }
}

impl Console {
    pub(crate) fn new() -> Console {
        Console {
            table: ArrayVec::new(),
            asked: Asked::new(),
            out: Output::new(),
            last: Ok(Answer::Nothing),
            score: Score { met: 0, missed: 0 },
            words: false,
        }
    }

    // To the end of the input, or to `quit`; no input has so many lines.
    pub(crate) fn serve(&mut self, rt: &impl Files) {
        let mut line = Letters::new();
        for number in 1..u64::MAX {
            let goes_on = next_line(&mut line);
            let quits = self.turn(rt, &line, number);
            if quits || !goes_on {
                return;
            }
        }
    }

    // What a line comes to: nothing, an answer that is held against the line, or one that is told. Answers whether it is `quit`.
    fn turn(&mut self, rt: &impl Files, line: &[u8], number: u64) -> bool {
        match command_of(line) {
            Ok(None) => {}
            Ok(Some(Command::Expect)) => self.expect(line, number),
            Ok(Some(command)) => {
                self.obey(rt, command, line);
                return command == Command::Quit;
            }
            Err(mistake) => {
                self.last = Err(mistake.into());
                self.tell(&self.last);
            }
        }
        false
    }

    // The answer, and with words on what it means.
    fn obey(&mut self, rt: &impl Files, command: Command, line: &[u8]) {
        let said = self.answer(rt, command, line);
        self.tell(&said);
        if self.words {
            mean(command, &said, &self.asked.list, &self.out.bytes);
        }
        self.last = said;
    }

    fn answer(&mut self, rt: &impl Files, command: Command, line: &[u8]) -> Said {
        match command {
            Command::Table => self.set_table(line),
            Command::Load => files::load(rt, word(line, 1), &mut self.table),
            Command::Save => files::save(rt, word(line, 1), &self.table),
            Command::List => self.set_list(line),
            Command::Keep => self.keep(line),
            Command::Caller => self.set_caller(line),
            Command::File => self.set_file(line),
            Command::Guard => self.set_guard(line),
            Command::Room => self.set_room(line),
            Command::Show => show(line),
            Command::Held => held(&self.table),
            Command::Records => records(&self.asked.list),
            Command::Total => Ok(self.score.total()),
            Command::Fill => self.fill(),
            Command::Drop => self.drop_host(line),
            Command::Audit => self.audit(),
            Command::Ask => self.ask(line),
            Command::Grant => self.grant(line),
            Command::Widest => self.grant_widest(line),
            Command::Return => self.give_back(line),
            Command::Check => self.check(),
            Command::Rights => self.rights(),
            Command::Needs => self.needs(line),
            Command::Put => self.put(line),
            Command::Unput => self.unput(line),
            Command::Words => self.set_words(line),
            Command::Help => help(word(line, 1)),
            Command::Quit | Command::Expect => Ok(Answer::Done),
        }
    }

    // The bytes that an answer shows.
    pub(crate) fn shown(&self, said: &Said) -> Option<&[u8]> {
        match said {
            Ok(Answer::Table) => Some(&self.table),
            Ok(Answer::List) => Some(&self.asked.list),
            Ok(Answer::Out(n)) => self.out.bytes.get(..*n),
            _ => None,
        }
    }

    // The line of an answer that shows no bytes.
    pub(crate) fn line_of(&self, said: &Said) -> Text {
        match said {
            Ok(Answer::Caller) => caller_line(self.asked.caller, &self.asked.groups),
            Ok(Answer::File) => file_line(self.asked.file),
            Ok(Answer::Guard) => guard_line(self.asked.guard),
            Ok(answer) => text(answer),
            Err(failure) => text(failure),
        }
    }

    // An answer, as a line.
    pub(crate) fn tell(&self, said: &Said) {
        match self.shown(said) {
            Some(bytes) => hexes::print_line(bytes),
            None => print_line(&self.line_of(said)),
        }
    }
}
