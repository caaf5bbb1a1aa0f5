// The records of an access list in words.
use crate::answer::{Answer, Said};
use crate::names::{Letters, kind_name};
use crate::texts::print_line;
use list::kind::{DEFAULT_REALM, FOREIGN_GROUP, FOREIGN_USER, USER};
use list::{LONGEST, Record, Walk};
use std::fmt;
use words::Realm;

// A record and its place in the list.
#[derive(Clone, Copy)]
pub struct Placed {
    pub place: usize,
    pub record: Record,
}

impl fmt::Display for Placed {
    fn fmt<W: fmt::Write>(&self, f: &mut fmt::Formatter<W>) -> fmt::Result {
        let place = self.place;
        let Record {
            kind,
            realm: Realm { hi, lo },
            id,
            rights,
            size: _,
        } = self.record;
        let name = kind_name(kind);
        write!(f, "place {place}, {name}")?;
        if kind == DEFAULT_REALM || FOREIGN_USER <= kind {
            write!(f, ", realm {hi:016x}{lo:016x}")?;
        }
        if USER <= kind && kind <= FOREIGN_GROUP {
            write!(f, ", id {id}")?;
        }
        if kind != DEFAULT_REALM {
            let letters = Letters(rights);
            write!(f, ", rights {letters}")?;
        }
        Ok(())
    }
}

// Each record that the walk gives; a list has fewer records than bytes.
pub(crate) fn records(list: &[u8]) -> Said {
    let mut walk = Walk::start(list);
    for n in 0..LONGEST {
        let place = walk.at;
        let Some((record, next)) = walk.step(list)? else {
            return Ok(Answer::Number(n as u64));
        };
        print_line(&Placed { place, record });
        walk = next;
    }
    Ok(Answer::Number(LONGEST as u64))
}
