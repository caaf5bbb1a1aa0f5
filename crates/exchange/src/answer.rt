// What a call answers, as C has it.
ghost use Rattle.std.specs.Prelude.{[], ◌∷◌};
ghost use Rattle.words.specs.Said.{done};
ghost use Rattle.words.specs.Refusal.{refusal_says};
ghost use Rattle.exchange.specs.Meaning.{Means};
ghost use Rattle.exchange.specs.declared.answer.Answer.{Answer};
ghost use Rattle.exchange.specs.Answer.{answer_of, answer_for, answered, truth_says};

use evaluate::Found;
use tokens::Granted;
use words::Refusal;

// A field that a call does not use is 0.
#[repr(C)]
#[derive(Clone, Copy)]
pub struct Answer {
    // 0, or the refusal's number.
    pub refused: u32,
    pub value: u64,
    // On refusal the place, or for 35 the true count.
    pub detail: u64,
    // The deciding record.
    pub start: usize,
    pub length: usize,
    // The range that was given.
    pub first: u64,
    pub last: u64,
}

impl Answer {
    const DONE: Answer = Answer {
        refused: 0,
        value: 0,
        detail: 0,
        start: 0,
        length: 0,
        first: 0,
        last: 0,
    };
}

// What can be told to C.
pub trait Told {
    ghost meant: { Self → Answer };

    fn told(self) -> Answer
        ensures { Means (meant self) result };
}

impl Told for () {
    ghost meant = { λ none. answer_of (done []) };

    #[tactic(auto, unfolding(crate::specs::Answer::answer_of, crate::specs::Answer::answer_for))]
    fn told(self) -> Answer {
        Answer::DONE
    }
}

// Yes is 1, and no is 0.
impl Told for bool {
    ghost meant = { λ truth. answer_of (truth_says truth) };

    #[tactic(auto, unfolding(crate::specs::Answer::truth_says))]
    fn told(self) -> Answer {
        u64::from(self).told()
    }
}

impl Told for u64 {
    ghost meant = { λ value. answer_of (done (value ∷ [])) };

    #[tactic(auto, unfolding(crate::specs::Answer::answer_of, crate::specs::Answer::answer_for))]
    fn told(self) -> Answer {
        Answer {
            value: self,
            ..Answer::DONE
        }
    }
}

impl Told for usize {
    ghost meant = { λ value. answer_of (done (value ∷ [])) };

    fn told(self) -> Answer {
        (self as u64).told()
    }
}

impl Told for Granted {
    ghost meant = { λ g. answer_of (done (g.number ∷ g.range.first ∷ g.range.last ∷ [])) };

    #[tactic(auto, unfolding(crate::specs::Answer::answer_of, crate::specs::Answer::answer_for))]
    fn told(self) -> Answer {
        Answer {
            value: self.number,
            first: self.range.first,
            last: self.range.last,
            ..Answer::DONE
        }
    }
}

impl Told for Found {
    ghost meant = { λ f. answer_for (done (f.rights ∷ [])) f.start f.size };

    #[tactic(auto, unfolding(crate::specs::Answer::answer_for))]
    fn told(self) -> Answer {
        Answer {
            value: self.rights as u64,
            start: self.start,
            length: self.size,
            ..Answer::DONE
        }
    }
}

impl Told for Refusal {
    ghost meant = { λ refusal. answer_of (refusal_says refusal) };

    fn told(self) -> Answer {
        Answer {
            refused: self.number() as u32,
            detail: self.value().unwrap_or(0) as u64,
            ..Answer::DONE
        }
    }
}

impl<T: Told> Told for Result<T, Refusal> {
    ghost meant = { answered T.meant };

    fn told(self) -> Answer {
        match self {
            Ok(value) => value.told(),
            Err(refusal) => refusal.told(),
        }
    }
}
