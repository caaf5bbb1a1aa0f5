// Why a call is refused: 01's table, by its numbers.
ghost use Rattle.std.specs.Prelude.{◌≡◌};
ghost use Rattle.words.specs.Refusal.{number_of, Places, TellsNumber, TellsValue};

// What is wrong with a list.
#[derive(Clone, Copy, PartialEq, Eq)]
pub enum Fault {
    TooLong = 10,
    NoDefaultRealm = 11,
    UnknownKind = 12,
    CutShort = 13,
    RightsAbove63 = 14,
    OutOfOrder = 15,
    ForbiddenRealm = 16,
    ObjectMissing = 17,
    MaskMissing = 18,
    ControlMissing = 19,
}

#[derive(Clone, Copy, PartialEq, Eq)]
pub enum Refusal {
    // 10 to 19, with the place in the list.
    Faulty { fault: Fault, place: usize },
    // 20.
    NothingToDrop,
    // 21.
    OutputTooShort,
    // 22.
    ModeAbove511,
    // 23.
    TooManyGroups,
    // 24.
    RightMissing,
    // 30.
    NotWellFormed,
    // 31.
    Malformed,
    // 32.
    Conflict,
    // 33.
    NoFreeSlot,
    // 34.
    NumbersSpent,
    // 35, with the true count.
    ListTooShort { count: usize },
    // 36.
    NoSuchToken,
    // 37.
    TypeLacking,
    // 38.
    NoSuchPart,
}

impl Fault {
    // The refusal of a list at a place.
    pub fn at(self, place: usize) -> Refusal
        ensures { Places self place result }
    {
        Refusal::Faulty { fault: self, place }
    }

    #[tactic(auto, unfolding(crate::specs::Refusal::number_of))]
    fn number(self) -> u8
        ensures { result ≡ number_of self }
    {
        self as u8
    }
}

impl Refusal {
    // The paper's number.
    #[tactic(auto, unfolding(crate::specs::Refusal::refusal_number))]
    pub fn number(self) -> u8
        ensures { TellsNumber self result }
    {
        match self {
            Refusal::Faulty { fault, place: _ } => fault.number(),
            Refusal::NothingToDrop => 20,
            Refusal::OutputTooShort => 21,
            Refusal::ModeAbove511 => 22,
            Refusal::TooManyGroups => 23,
            Refusal::RightMissing => 24,
            Refusal::NotWellFormed => 30,
            Refusal::Malformed => 31,
            Refusal::Conflict => 32,
            Refusal::NoFreeSlot => 33,
            Refusal::NumbersSpent => 34,
            Refusal::ListTooShort { count: _ } => 35,
            Refusal::NoSuchToken => 36,
            Refusal::TypeLacking => 37,
            Refusal::NoSuchPart => 38,
        }
    }

    // What goes with it: the place in a list, or the true count.
    #[tactic(auto, unfolding(crate::specs::Refusal::refusal_value))]
    pub fn value(self) -> Option<usize>
        ensures { TellsValue self result }
    {
        match self {
            Refusal::Faulty { fault: _, place } => Some(place),
            Refusal::ListTooShort { count } => Some(count),
            _ => None,
        }
    }
}
