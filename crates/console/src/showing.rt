// The buffers in hex, and the lines that would set the caller, the file and its guard.
use crate::amounts::at_most;
use crate::answer::{Answer, Said};
use crate::mistake::Mistake;
use crate::output::SIZE;
use crate::spaced::{count, word};
use crate::texts::{Text, text};
use evaluate::{Caller, File};
use rights::Guard;
use std::fmt::Write;
use words::Realm;

pub(crate) fn caller_line(caller: Caller, groups: &[u32]) -> Text {
    let Caller {
        realm: Realm { hi, lo },
        user,
        group,
    } = caller;
    let mut line = text(&format_args!("caller {hi:016x}{lo:016x} {user} {group}"));
    for id in groups {
        let _ = write!(line, " {id}");
    }
    line
}

pub(crate) fn file_line(file: File) -> Text {
    let File { owner, group, dir } = file;
    let what = if dir { "dir" } else { "file" };
    text(&format_args!("file {owner} {group} {what}"))
}

pub(crate) fn guard_line(guard: Guard) -> Text {
    match guard {
        Guard::List => text(&"guard list"),
        Guard::Mode {
            realm: Realm { hi, lo },
            mode,
        } => text(&format_args!("guard mode {hi:016x}{lo:016x} {mode}")),
    }
}

pub(crate) fn show(line: &[u8]) -> Said {
    Ok(match (word(line, 1), count(line)) {
        (b"table", 2) => Answer::Table,
        (b"list", 2) => Answer::List,
        (b"caller", 2) => Answer::Caller,
        (b"file", 2) => Answer::File,
        (b"guard", 2) => Answer::Guard,
        (b"out", _) => Answer::Out(at_most(word(line, 2), SIZE).ok_or(Mistake::Shown)?),
        _ => return Err(Mistake::Shown.into()),
    })
}
