// The output buffer, and what of it is lent, written and read.
use crate::answer::Answer;

pub(crate) const SIZE: usize = 16384;

// An array, and no `ArrayVec`: what stands past the room is shown too.
#[derive(Drop)]
pub struct Output {
    pub bytes: [u8; SIZE],
    // How many bytes are lent to a call.
    pub room: usize,
    // How many bytes are a list that an edit wrote.
    pub edited: Option<usize>,
}

impl Output {
    pub(crate) fn new() -> Output {
        Output {
            bytes: [0; SIZE],
            room: SIZE,
            edited: None,
        }
    }

    // A ghost field for the bound of the room would leave this with no proof, so it is taken here.
    pub(crate) fn lent(&mut self) -> &mut [u8] {
        let room = self.room.min(SIZE);
        let bytes = &mut self.bytes[..];
        &mut bytes[..room]
    }

    // The answer to an edit that wrote a list of a length.
    pub(crate) fn after_edit(&mut self, length: usize) -> Answer {
        self.edited = Some(length);
        Answer::Number(length as u64)
    }

    // The answer to an ask: tokens that it lists stand where an edit wrote.
    pub(crate) fn after_ask(&mut self, tokens: usize) -> Answer {
        if tokens != 0 {
            self.edited = None;
        }
        Answer::Number(tokens as u64)
    }
}
