// Lines of text, put together before they are written.
use arrayvec::ArrayString;
use std::fmt::{Display, Write};

const STDOUT: i32 = 1;

// There is room for the longest line, a caller with all further groups.
pub type Text = ArrayString<512>;

// Letters to standard output.
pub(crate) fn write(letters: &[u8]) {
    io::write_all(STDOUT, letters);
}

pub(crate) fn text(said: &impl Display) -> Text {
    let mut text = Text::new();
    let _ = write!(text, "{said}");
    text
}

pub(crate) fn print(said: &impl Display) {
    write(text(said).as_str().as_bytes());
}

pub(crate) fn print_line(said: &impl Display) {
    print(&format_args!("{said}\n"));
}
