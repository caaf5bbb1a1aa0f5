// What stands under a file's name.
use std::fs::{Metadata, OpenOptions};
use std::rt::Files;

// A file and nothing else: a link is none, wherever it leads.
pub(crate) fn is_regular(what: &Metadata) -> bool {
    what.file_type().is_file()
}

pub(crate) fn may_be_written(rt: &impl Files, file: &str) -> bool {
    OpenOptions::new().write(true).open(rt, file).is_ok()
}
