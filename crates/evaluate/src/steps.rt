// Which of the seven steps a record serves.
ghost use Rattle.std.specs.Prelude.{◌≡◌, true, false, ◌<◌, eqb, if◌then◌else◌};
ghost use Rattle.evaluate.specs.Steps.{steps};
ghost use Rattle.evaluate.specs.Tally.{step_from};
ghost use Rattle.evaluate.specs.declared.asking.File.{File as FileOf};

use crate::asking::{Caller, File, is_in_group};
use crate::step;
use list::Record;
use list::kind::{
    ANY_OTHER, FOREIGN_GROUP, FOREIGN_OTHER, FOREIGN_USER, GROUP, GROUP_OBJ, OTHER_OBJ, USER,
    USER_OBJ,
};

// The step, if the record serves it.
fn when(test: bool, step: u8) -> u8
    ensures { result ≡ (if test then step else 8) }
{
    if test {
        return step;
    }
    step::NONE
}

// For a caller of the default realm: the kinds before user.
#[tactic(auto, unfolding(crate::specs::Tally::step_from, crate::specs::Steps::steps, crate::specs::Steps::here, crate::specs::Steps::abroad, crate::specs::Steps::masked, crate::specs::Steps::unmasked, words::specs::Realm::same_realm))]
fn step_by_object(groups: &[u32], caller: Caller, file: File, r: Record) -> u8
    requires { r.kind < 7 }
    ensures { result ≡ step_from 1 (steps true groups.now caller file) r }
{
    let kind = r.kind;
    if kind == USER_OBJ {
        return when(caller.user == file.owner, step::OWNER);
    }
    if kind == GROUP_OBJ {
        return when(is_in_group(caller, groups, file.group), step::GROUP);
    }
    if kind == OTHER_OBJ {
        return step::OTHER;
    }
    when(kind == ANY_OTHER, step::ANY_OTHER)
}

// For a caller of the default realm. Users and groups, of which lists are long, are asked for first.
#[tactic(auto, unfolding(crate::specs::Tally::step_from, crate::specs::Steps::steps, crate::specs::Steps::here, crate::specs::Steps::abroad, crate::specs::Steps::masked, crate::specs::Steps::unmasked, words::specs::Realm::same_realm))]
fn step_here(groups: &[u32], caller: Caller, file: File, r: Record) -> u8
    ensures { result ≡ step_from 1 (steps true groups.now caller file) r }
{
    let kind = r.kind;
    if kind < USER {
        return step_by_object(groups, caller, file, r);
    }
    if kind == USER {
        return when(r.id == caller.user, step::USER);
    }
    if kind == GROUP {
        return when(is_in_group(caller, groups, r.id), step::GROUP);
    }
    step::NONE
}

// For a caller of another realm, whatever the file.
#[tactic(auto, unfolding(crate::specs::Tally::step_from, crate::specs::Steps::steps, crate::specs::Steps::here, crate::specs::Steps::abroad, crate::specs::Steps::masked, crate::specs::Steps::unmasked, words::specs::Realm::same_realm))]
fn step_abroad(groups: &[u32], caller: Caller, r: Record) -> u8
    ensures { (file : FileOf) → result ≡ step_from 1 (steps false groups.now caller file) r }
{
    let kind = r.kind;
    if kind == ANY_OTHER {
        return step::ANY_OTHER;
    }
    if r.realm != caller.realm {
        return step::NONE;
    }
    if kind == FOREIGN_USER {
        return when(r.id == caller.user, step::USER);
    }
    if kind == FOREIGN_GROUP {
        return when(is_in_group(caller, groups, r.id), step::GROUP);
    }
    when(kind == FOREIGN_OTHER, step::FOREIGN_OTHER)
}

pub(crate) fn step_of(home: bool, groups: &[u32], caller: Caller, file: File, r: Record) -> u8
    ensures { result ≡ step_from 1 (steps home groups.now caller file) r }
{
    if home {
        return step_here(groups, caller, file, r);
    }
    step_abroad(groups, caller, r)
}
