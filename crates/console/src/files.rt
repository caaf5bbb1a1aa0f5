// The table's bytes from a file and to one.
use crate::answer::{Answer, Said};
use crate::console::Table;
use crate::looking::{is_regular, may_be_written};
use crate::mistake::Mistake;
use arrayvec::ArrayString;
use std::fs;
use std::fs::{Metadata, OpenFile, OpenOptions, Permissions};
use std::io::{Error, ErrorKind, Read, Write};
use std::rt::Files;

// How many bytes of a buffer the file filled, until it ended or could not be read.
fn fill(file: &mut impl Read, bytes: &mut [u8]) -> usize {
    let mut filled = 0;
    for _ in 0..bytes.len() {
        match file.read(&mut bytes[filled..]) {
            Ok(0) => return filled,
            Ok(n) => filled += n,
            Err(_) => return filled,
        }
    }
    filled
}

// No byte is left, and that could be seen.
fn is_ended(file: &mut impl Read) -> bool {
    let mut next = [0u8; 1];
    matches!(file.read(&mut next), Ok(0))
}

fn name_in(word: &[u8]) -> Result<&str, Mistake> {
    str::from_utf8(word).map_err(|_| Mistake::NotOpened)
}

pub(crate) fn load(rt: &impl Files, name: &[u8], table: &mut Table) -> Said {
    let mut file = fs::open(rt, name_in(name)?).map_err(|_| Mistake::NotOpened)?;
    let mut bytes = [0u8; 65536];
    let n = fill(&mut file, &mut bytes);
    if !is_ended(&mut file) {
        return Err(Mistake::NotRead.into());
    }
    table.clear();
    let _ = table.try_extend_from_slice(bytes.get(..n).unwrap_or(&bytes));
    Ok(Answer::length(table))
}

// All of the bytes, with the mode of the file whose place this one takes, until they have reached the device; then it is closed.
fn write_out(
    mut file: impl OpenFile + Write + Drop,
    mode: Option<Permissions>,
    bytes: &[u8],
) -> bool {
    let moded = mode.is_none_or(|mode| file.set_permissions(mode).is_ok());
    let written = file.write_all(bytes).is_ok();
    let synced = file.sync_all().is_ok();
    moded && written && synced
}

fn why_not_made(why: Error) -> Mistake {
    match why.kind() {
        ErrorKind::AlreadyExists => Mistake::NewIsThere,
        _ => Mistake::NotOpened,
    }
}

// The bytes under a new name, which then takes the file's place. Where that fails the new name is gone, and the file is as it was.
fn replace(
    rt: &impl Files,
    file: &str,
    mode: Option<Permissions>,
    new: &str,
    bytes: &[u8],
) -> Result<(), Mistake> {
    let made = OpenOptions::new()
        .write(true)
        .create_new(true)
        .open(rt, new)
        .map_err(why_not_made)?;
    if write_out(made, mode, bytes) && fs::rename(rt, new, file).is_ok() {
        return Ok(());
    }
    let _gone = fs::remove_file(rt, new).is_ok();
    Err(Mistake::NotWritten)
}

// The name of a file that stands beside this one until it takes its place.
fn new_name(file: &str) -> Option<ArrayString<4096>> {
    let mut new = ArrayString::new();
    new.try_push_str(file).ok()?;
    new.try_push_str(".new").ok()?;
    Some(new)
}

// The mode of what stands there; none where nothing does.
fn mode_of(rt: &impl Files, file: &str) -> Result<Option<Permissions>, Mistake> {
    match fs::symlink_metadata(rt, file) {
        Ok(what) if !is_regular(&what) => Err(Mistake::NotRegular),
        Ok(_) if !may_be_written(rt, file) => Err(Mistake::NotOpened),
        Ok(what) => Ok(Some(what.permissions())),
        Err(_) => Ok(None),
    }
}

pub(crate) fn save(rt: &impl Files, name: &[u8], table: &[u8]) -> Said {
    if table.is_empty() {
        return Err(Mistake::NoTable.into());
    }
    let file = name_in(name)?;
    let mode = mode_of(rt, file)?;
    let new = new_name(file).ok_or(Mistake::NotOpened)?;
    replace(rt, file, mode, new.as_str(), table)?;
    Ok(Answer::length(table))
}
