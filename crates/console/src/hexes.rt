// Bytes as hex digits, read and written.
use crate::amounts::digits;
use crate::texts::{Text, write};
use arrayvec::ArrayVec;
use claims::FileId;
use std::fmt::Write;
use words::Realm;

// So many bytes fill a line of text.
const PIECE: usize = 256;

// The byte of two digits.
fn byte(pair: &[u8]) -> Option<u8> {
    match pair {
        [_, _] => u8::try_from(digits(pair, 16)?).ok(),
        _ => None,
    }
}

// No bytes.
pub(crate) fn is_dash(word: &[u8]) -> bool {
    matches!(word, b"-")
}

// Hex digits alone, two for each byte.
fn are_digits(word: &[u8]) -> bool {
    !word.is_empty() && word.len() % 2 == 0 && word.iter().all(|letter| letter.is_ascii_hexdigit())
}

// The bytes of a word, two digits for each, or '-' for none, in place of a buffer's; no word has more than there is room for. None where
// the word says no bytes, and the buffer is as it was. A buffer made anew is as dear for one byte as for all.
pub(crate) fn read_bytes<const N: usize>(word: &[u8], bytes: &mut ArrayVec<u8, N>) -> Option<()> {
    if !is_dash(word) && !are_digits(word) {
        return None;
    }
    bytes.clear();
    for pair in word.chunks(2) {
        if let Some(byte) = byte(pair) {
            let _ = bytes.try_push(byte);
        }
    }
    Some(())
}

pub(crate) fn realm(word: &[u8]) -> Option<Realm> {
    if word.len() != 32 {
        return None;
    }
    let (hi, lo) = word.split_at(16);
    Some(Realm {
        hi: digits(hi, 16)?,
        lo: digits(lo, 16)?,
    })
}

pub(crate) fn file_id(word: &[u8]) -> Option<FileId> {
    if word.len() != 24 {
        return None;
    }
    let (hi, lo) = word.split_at(16);
    Some(FileId {
        hi: digits(hi, 16)?,
        lo: u32::try_from(digits(lo, 16)?).ok()?,
    })
}

// A line of the bytes in hex, '-' where there are none.
pub(crate) fn print_line(bytes: &[u8]) {
    if bytes.is_empty() {
        write(b"-");
    }
    for piece in bytes.chunks(PIECE) {
        let mut text = Text::new();
        for byte in piece {
            let _ = write!(text, "{byte:02x}");
        }
        write(text.as_str().as_bytes());
    }
    write(b"\n");
}

// These letters are the bytes in hex, or '-' where there are none.
pub(crate) fn is_spelled(bytes: &[u8], word: &[u8]) -> bool {
    if bytes.is_empty() {
        return is_dash(word);
    }
    word.chunks(2).map(byte).eq(bytes.iter().copied().map(Some))
}
