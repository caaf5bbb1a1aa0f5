// The words of a line, which spaces separate.
pub(crate) const SPACE: u8 = b' ';

fn is_space(letter: &u8) -> bool {
    *letter == SPACE
}

fn is_word(part: &&[u8]) -> bool {
    !part.is_empty()
}

// The word after k others; empty where there is none.
pub(crate) fn word(line: &[u8], k: usize) -> &[u8] {
    line.split(is_space).filter(is_word).nth(k).unwrap_or(&[])
}

// How many words a line has.
pub(crate) fn count(line: &[u8]) -> usize {
    line.split(is_space).filter(is_word).count()
}

// The letters from the first to the last that is no space.
pub(crate) fn trimmed(line: &[u8]) -> &[u8] {
    let mut text = line;
    while let [SPACE, rest @ ..] | [rest @ .., SPACE] = text {
        text = rest;
    }
    text
}
