// Standard input, line by line.
use crate::spaced::SPACE;
use arrayvec::ArrayVec;

const STDIN: i32 = 0;

// A line has at most so many characters.
pub(crate) const LONGEST: usize = 16384;

// The letters of a line. With room for two more, a line that is too long shows it by its length, whatever its end.
pub type Letters = ArrayVec<u8, 16386>;

fn next_letter() -> Option<u8> {
    let mut byte = [0u8; 1];
    let got = io::read_full(STDIN, &mut byte);
    (got == 1).then_some(byte[0])
}

// A tab separates words as a space does.
fn untabbed(letter: u8) -> u8 {
    match letter {
        b'\t' => SPACE,
        _ => letter,
    }
}

// The next line, letter by letter, without a carriage return at its end: what follows it stays for whoever reads next. Answers
// whether the input goes on after it. No line has so many letters as the loop has turns.
pub(crate) fn next_line(line: &mut Letters) -> bool {
    line.clear();
    let mut goes_on = false;
    for _ in 0..u64::MAX {
        match next_letter() {
            None => break,
            Some(b'\n') => {
                goes_on = true;
                break;
            }
            Some(letter) => {
                let _ = line.try_push(untabbed(letter));
            }
        }
    }
    if line.last() == Some(&b'\r') {
        let _ = line.pop();
    }
    goes_on
}
