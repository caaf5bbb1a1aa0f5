// The walk over a list, from record to record; its steps make all of the list's checks.
ghost use Rattle.std.specs.Prelude.{◌≡◌, true, not, ◌&&◌, ◌+◌, ◌<◌, ◌^◌, eqb, length, None, Some, Ok};
ghost use Rattle.words.specs.Realm.{zero_realm};
ghost use Rattle.records.specs.Kind.{body_of};
ghost use Rattle.records.specs.Reading.{read_of};
ghost use Rattle.list.specs.Fault.{begins, end_fault};
ghost use Rattle.list.specs.Walking.{seen_of, walk_after, refused_or, heard, Starts, Steps};

use crate::faults::{end_fault, fault_of, mark_of};
use records::kind::DEFAULT_REALM;
use records::{Record, read_record};
use words::{Fault, Realm, Refusal, realm_at};

// A list is at most so many bytes.
pub const LONGEST: usize = 4096;

// Where the next record begins, the default realm, the record before, and the marks of all so far.
#[derive(Clone, Copy)]
pub struct Walk {
    pub at: usize,
    pub home: Realm,
    pub earlier: Record,
    pub marks: u8,
}

// At the beginning of a list that does not begin with kind 1.
#[tactic(auto, unfolding(crate::specs::Fault::begins))]
fn is_unbegun(at: usize, list: &[u8]) -> bool
    ensures { result ≡ (eqb at 0 && not (begins list.now)) }
{
    if at != 0 {
        return false;
    }
    list.first().copied() != Some(DEFAULT_REALM)
}

impl Walk {
    // The walk at the beginning of a list.
    #[tactic(auto, unfolding(crate::specs::Walking::start_of, crate::specs::Fault::no_record, words::specs::Realm::zero_realm))]
    pub fn start(list: &[u8]) -> Walk
        ensures { Starts list.now result }
    {
        let none = Record {
            kind: 0,
            realm: Realm::ZERO,
            id: 0,
            rights: 0,
            size: 0,
        };
        Walk {
            at: 0,
            home: realm_at(list, 1),
            earlier: none,
            marks: 0,
        }
    }

    #[tactic(auto, unfolding(crate::specs::Walking::walk_after))]
    fn after(self, r: Record) -> Walk
        requires { self.at + r.size < 2 ^ 64 }
        ensures { result ≡ walk_after self r }
    {
        Walk {
            at: self.at + r.size,
            earlier: r,
            marks: self.marks | mark_of(r),
            ..self
        }
    }

    // A whole record at the walk's place, as it is read.
    #[tactic(auto, unfolding(crate::specs::Walking::heard, crate::specs::Walking::refused_or, records::specs::Reading::when_whole))]
    fn take(self, r: Record) -> Result<Option<(Record, Walk)>, Refusal>
        requires size_bound { self.at + r.size < 2 ^ 64 }
        requires realm_value { eqb (body_of r.kind).realm 0 ≡ true → r.realm ≡ zero_realm }
        ensures { result ≡ heard self (Ok (Some r)) }
    {
        if let Some(fault) = fault_of(self.home, self.earlier, r) {
            return Err(fault.at(self.at));
        }
        Ok(Some((r, self.after(r))))
    }

    // What is read from the tail at the walk's place.
    fn hear(self, tail: &[u8]) -> Result<Option<(Record, Walk)>, Refusal>
        requires { self.at + length tail.now < 2 ^ 64 }
        ensures { result ≡ heard self (read_of tail.now) }
    {
        match read_record(tail) {
            Ok(Some(r)) => self.take(r),
            Ok(None) => Ok(None),
            Err(fault) => Err(fault.at(self.at)),
        }
    }

    // The end of a list of n bytes.
    #[tactic(auto, unfolding(crate::specs::Walking::refused_or))]
    fn finish(self, n: usize) -> Result<Option<(Record, Walk)>, Refusal>
        ensures { result ≡ refused_or (end_fault (seen_of self.marks)) n (Ok None) }
    {
        if let Some(fault) = end_fault(self.marks) {
            return Err(fault.at(n));
        }
        Ok(None)
    }

    // The next record and the walk after it, or none at the end.
    #[tactic(auto, unfolding(crate::specs::Walking::step_of))]
    pub fn step(self, list: &[u8]) -> Result<Option<(Record, Walk)>, Refusal>
        ensures { Steps self list.now result }
    {
        let at = self.at;
        let n = list.len();
        if LONGEST < n {
            return Err(Fault::TooLong.at(0));
        }
        if is_unbegun(at, list) {
            return Err(Fault::NoDefaultRealm.at(0));
        }
        if n <= at {
            return self.finish(n);
        }
        self.hear(&list[at..])
    }
}
