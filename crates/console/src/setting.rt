// The commands that set what the calls go by: the table's bytes, the list, the room for output, the caller, the file, its guard;
// and whether answers are put in words.
use crate::amounts::{amount, at_most, mode};
use crate::answer::{Answer, Said};
use crate::console::{Console, Table};
use crate::hexes;
use crate::mistake::Mistake;
use crate::output::SIZE;
use crate::spaced::{count, word};
use arrayvec::ArrayVec;
use evaluate::{Caller, File};
use rights::Guard;
use table::WIDTH;

// A table of so many slots fits the buffer.
const MOST_SLOTS: usize = 1597;

// The place of the first further group among the words of a line.
const FURTHER: usize = 4;

// So many zeroes are laid down at once.
const PIECE: usize = 1024;

// Zeroes in place of a table's bytes, a piece at a time: an array of the most is as dear for one slot as for all.
fn set_zeroes(table: &mut Table, length: usize) {
    let piece = [0; PIECE];
    table.clear();
    for _ in 0..length / PIECE {
        let _ = table.try_extend_from_slice(&piece);
    }
    let _ = table.try_extend_from_slice(&piece[..length % PIECE]);
}

fn caller_in(line: &[u8]) -> Option<Caller> {
    Some(Caller {
        realm: hexes::realm(word(line, 1))?,
        user: amount(word(line, 2))?,
        group: amount(word(line, 3))?,
    })
}

fn groups_in(line: &[u8]) -> Option<ArrayVec<u32, 40>> {
    let mut groups = ArrayVec::new();
    for k in FURTHER..count(line) {
        let _ = groups.try_push(amount(word(line, k))?);
    }
    Some(groups)
}

fn file_in(line: &[u8]) -> Option<File> {
    Some(File {
        owner: amount(word(line, 1))?,
        group: amount(word(line, 2))?,
        dir: match word(line, 3) {
            b"file" => false,
            b"dir" => true,
            _ => return None,
        },
    })
}

fn mode_guard_in(line: &[u8]) -> Option<Guard> {
    Some(Guard::Mode {
        realm: hexes::realm(word(line, 2))?,
        mode: mode(word(line, 3))?,
    })
}

impl Console {
    pub(crate) fn set_table(&mut self, line: &[u8]) -> Said {
        if matches!(word(line, 1), b"hex") {
            hexes::read_bytes(word(line, 2), &mut self.table).ok_or(Mistake::Bytes)?;
            return Ok(Answer::length(&self.table));
        }
        let (Some(slots), 2) = (at_most(word(line, 1), MOST_SLOTS), count(line)) else {
            return Err(Mistake::Slots.into());
        };
        set_zeroes(&mut self.table, (1 + slots) * WIDTH);
        Ok(Answer::length(&self.table))
    }

    pub(crate) fn set_list(&mut self, line: &[u8]) -> Said {
        hexes::read_bytes(word(line, 1), &mut self.asked.list).ok_or(Mistake::Bytes)?;
        Ok(Answer::length(&self.asked.list))
    }

    // The first bytes of the output buffer become the list: as many as LENGTH says, or else what the last edit wrote.
    pub(crate) fn keep(&mut self, line: &[u8]) -> Said {
        let kept = match word(line, 1) {
            [] => self.out.edited.ok_or(Mistake::NoEdit)?,
            given => at_most(given, SIZE).ok_or(Mistake::Kept)?,
        };
        let bytes = self.out.bytes.get(..kept).unwrap_or(&self.out.bytes);
        self.asked.list.clear();
        let _ = self.asked.list.try_extend_from_slice(bytes);
        Ok(Answer::length(&self.asked.list))
    }

    pub(crate) fn set_room(&mut self, line: &[u8]) -> Said {
        self.out.room = at_most(word(line, 1), SIZE).ok_or(Mistake::Room)?;
        Ok(Answer::Done)
    }

    pub(crate) fn set_caller(&mut self, line: &[u8]) -> Said {
        let caller = caller_in(line).ok_or(Mistake::Caller)?;
        self.asked.groups = groups_in(line).ok_or(Mistake::Caller)?;
        self.asked.caller = caller;
        Ok(Answer::Done)
    }

    pub(crate) fn set_file(&mut self, line: &[u8]) -> Said {
        self.asked.file = file_in(line).ok_or(Mistake::File)?;
        Ok(Answer::Done)
    }

    pub(crate) fn set_guard(&mut self, line: &[u8]) -> Said {
        self.asked.guard = match (word(line, 1), count(line)) {
            (b"mode", _) => mode_guard_in(line).ok_or(Mistake::Mode)?,
            (b"list", 2) => Guard::List,
            _ => return Err(Mistake::Guard.into()),
        };
        Ok(Answer::Done)
    }

    pub(crate) fn set_words(&mut self, line: &[u8]) -> Said {
        self.words = match word(line, 1) {
            b"on" => true,
            b"off" => false,
            _ => return Err(Mistake::Words.into()),
        };
        Ok(Answer::Done)
    }
}
