// What is kept of the records so far: the first step that one of them serves, and the mask.
ghost use Rattle.std.specs.Prelude.{◌≡◌, ◌<◌};
ghost use Rattle.list.specs.Checking.{placed};
ghost use Rattle.evaluate.specs.Tally.{no_tally, tallied, allowed};

use crate::step;
use list::Record;
use list::kind::MASK_OBJ;

// All eight bits: what is left where there is no mask_obj.
const UNMASKED: u8 = 255;

// The step, the union of the records that serve it, the first of them, and the rights that mask_obj leaves.
#[derive(Clone, Copy)]
pub struct Tally {
    pub step: u8,
    pub rights: u8,
    pub start: usize,
    pub size: usize,
    pub mask: u8,
}

#[tactic(auto, unfolding(crate::specs::Tally::no_tally))]
pub(crate) fn no_tally() -> Tally
    ensures { result ≡ no_tally }
{
    Tally {
        step: step::NOTHING,
        rights: 0,
        start: 0,
        size: 0,
        mask: UNMASKED,
    }
}

impl Tally {
    // With the record at a place, which serves a step.
    #[tactic(auto, unfolding(crate::specs::Tally::tallied, crate::specs::Tally::counted, crate::specs::Tally::with_mask, crate::specs::Tally::with_union, crate::specs::Steps::is_mask, list::specs::Checking::placed))]
    pub(crate) fn with(self, step: u8, at: usize, r: Record) -> Tally
        ensures { result ≡ tallied self step (placed at r) }
    {
        if r.kind == MASK_OBJ {
            return Tally {
                mask: self.mask & r.rights,
                ..self
            };
        }
        if self.step < step {
            return self;
        }
        if self.step == step {
            return Tally {
                rights: self.rights | r.rights,
                ..self
            };
        }
        Tally {
            step,
            rights: r.rights,
            start: at,
            size: r.size,
            ..self
        }
    }

    // Steps 1 and 4 are not masked.
    #[tactic(auto, using(crate::proofs::Masking::unmasked_allowed, crate::proofs::Masking::masked_allowed))]
    pub(crate) fn allowed(self) -> u8
        ensures { (result ≡ allowed self) × (self.rights < 256) }
    {
        if (self.step == step::OWNER) | (self.step == step::OTHER) {
            return self.rights;
        }
        self.rights & self.mask
    }
}
