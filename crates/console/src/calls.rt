// The calls, on what the console remembers.
use crate::amounts::amount;
use crate::answer::{Answer, Said};
use crate::console::Console;
use crate::hexes::{file_id, is_dash, realm};
use crate::mistake::Mistake;
use crate::names::{kind_in, rights_in, types_in};
use crate::spaced::word;
use access::needed_rights;
use claims::Claim;
use edit::{Entry, drop_entry, put_entry};
use evaluate::check_list;
use list::kind::{FOREIGN_OTHER, FOREIGN_USER};
use rights::decide;
use words::Realm;

fn claim_in(line: &[u8]) -> Option<Claim> {
    Some(Claim {
        host: amount(word(line, 1))?,
        types: types_in(word(line, 2))?,
        file: file_id(word(line, 3))?,
        first: amount(word(line, 4))?,
        last: amount(word(line, 5))?,
    })
}

// The host, the number and the types of a return.
fn return_in(line: &[u8]) -> Option<(u16, u64, u16)> {
    Some((
        amount(word(line, 1))?,
        amount(word(line, 2))?,
        types_in(word(line, 3))?,
    ))
}

// A realm where the kind has one; elsewhere it may be left out.
fn realm_of(kind: u8, word: &[u8]) -> Option<Realm> {
    if is_dash(word) && (kind < FOREIGN_USER || FOREIGN_OTHER < kind) {
        return Some(Realm::ZERO);
    }
    realm(word)
}

fn entry_in(line: &[u8], rights: Option<u8>) -> Option<Entry> {
    let kind = kind_in(word(line, 1))?;
    Some(Entry {
        kind,
        realm: realm_of(kind, word(line, 2))?,
        id: amount(word(line, 3))?,
        rights: rights?,
    })
}

impl Console {
    pub(crate) fn fill(&mut self) -> Said {
        desk::fill(&mut self.table)?;
        Ok(Answer::Done)
    }

    pub(crate) fn drop_host(&mut self, line: &[u8]) -> Said {
        let host = amount(word(line, 1)).ok_or(Mistake::Host)?;
        Ok(Answer::Number(desk::drop_host(&mut self.table, host)?))
    }

    pub(crate) fn audit(&self) -> Said {
        Ok(Answer::Audited(desk::audit(&self.table)))
    }

    // The rights that types need on the file.
    pub(crate) fn needs(&self, line: &[u8]) -> Said {
        let types = types_in(word(line, 1)).ok_or(Mistake::Types)?;
        Ok(Answer::Needed(needed_rights(types, self.asked.file.dir)))
    }

    pub(crate) fn ask(&mut self, line: &[u8]) -> Said {
        let claim = claim_in(line).ok_or(Mistake::Claim)?;
        let tokens = desk::ask(&self.table, claim, self.asked.access(), self.out.lent())?;
        Ok(self.out.after_ask(tokens))
    }

    pub(crate) fn grant(&mut self, line: &[u8]) -> Said {
        let claim = claim_in(line).ok_or(Mistake::Claim)?;
        Ok(Answer::Number(desk::grant(&mut self.table, claim, self.asked.access())?))
    }

    pub(crate) fn grant_widest(&mut self, line: &[u8]) -> Said {
        let claim = claim_in(line).ok_or(Mistake::Claim)?;
        Ok(Answer::Granted(desk::grant_widest(&mut self.table, claim, self.asked.access())?))
    }

    pub(crate) fn give_back(&mut self, line: &[u8]) -> Said {
        let (host, number, types) = return_in(line).ok_or(Mistake::Return)?;
        desk::give_back(&mut self.table, host, number, types)?;
        Ok(Answer::Done)
    }

    pub(crate) fn check(&self) -> Said {
        check_list(&self.asked.list)?;
        Ok(Answer::Done)
    }

    pub(crate) fn rights(&self) -> Said {
        Ok(Answer::Rights(decide(self.asked.access())?))
    }

    pub(crate) fn put(&mut self, line: &[u8]) -> Said {
        let rights = rights_in(word(line, 4));
        let entry = entry_in(line, rights).ok_or(Mistake::Entry)?;
        let length = put_entry(&self.asked.list, entry, self.out.lent())?;
        Ok(self.out.after_edit(length))
    }

    // The rights of a drop may be given, and are ignored.
    pub(crate) fn unput(&mut self, line: &[u8]) -> Said {
        let rights = match word(line, 4) {
            [] => Some(0),
            given => rights_in(given),
        };
        let entry = entry_in(line, rights).ok_or(Mistake::Entry)?;
        let length = drop_entry(&self.asked.list, entry, self.out.lent())?;
        Ok(self.out.after_edit(length))
    }
}
