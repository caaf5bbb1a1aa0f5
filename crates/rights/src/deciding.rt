// The decision by value: the core of the rights call.
ghost use Rattle.evaluate.specs.Evaluation.{unless_too_many};
ghost use Rattle.rights.specs.Deciding.{by_mode, decided_by, Finds};

use crate::access::Access;
use crate::guard::Guard;
use crate::mode::mode_rights;
use evaluate::{Caller, File, Found, MOST_GROUPS, evaluate};
use words::{Fault, Realm, Refusal, is_unknown};

const HIGHEST_MODE: u32 = 511;

#[tactic(auto, unfolding(crate::specs::Deciding::by_mode, evaluate::specs::Evaluation::unless_too_many, evaluate::specs::Evaluation::bare, evaluate::specs::Evaluation::evaluated_as, words::specs::Refusal::refusal_says, words::specs::Refusal::refusal_number, words::specs::Refusal::number_of, words::specs::Refusal::refusal_value, words::specs::Refusal::values_in))]
fn by_mode(
    groups: &[u32],
    caller: Caller,
    file: File,
    local: Realm,
    mode: u32,
) -> Result<Found, Refusal>
    ensures { Finds (unless_too_many groups.now (by_mode groups.now caller file local mode)) result }
{
    if MOST_GROUPS < groups.len() {
        return Err(Refusal::TooManyGroups);
    }
    if is_unknown(local) {
        return Err(Fault::ForbiddenRealm.at(0));
    }
    if HIGHEST_MODE < mode {
        return Err(Refusal::ModeAbove511);
    }
    Ok(Found {
        rights: mode_rights(groups, caller, file, local, mode),
        start: 0,
        size: 0,
    })
}

// The rights of a caller on a file under its guard, or the refusal; the list is looked at only if it is the guard.
#[tactic(auto, unfolding(crate::specs::Deciding::by_guard, crate::specs::Deciding::decided, evaluate::specs::Evaluation::evaluation))]
pub fn decide(access: Access) -> Result<Found, Refusal>
    ensures { Finds (decided_by access.entry) result }
{
    let Access {
        list,
        groups,
        caller,
        file,
        guard,
    } = access;
    match guard {
        Guard::List => evaluate(list, groups, caller, file),
        Guard::Mode { realm, mode } => by_mode(groups, caller, file, realm, mode),
    }
}
