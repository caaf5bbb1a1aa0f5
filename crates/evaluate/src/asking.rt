// Who asks, and of which file.
ghost use Rattle.std.specs.Prelude.{◌≡◌, eqb};
ghost use Rattle.words.specs.Test.{any_of};
ghost use Rattle.evaluate.specs.Asking.{of_default_realm, TellsGroup};

use words::Realm;

// A caller; its further groups are lent beside it, as C lends them, so that a caller is plain numbers.
#[derive(Clone, Copy)]
pub struct Caller {
    pub realm: Realm,
    pub user: u32,
    pub group: u32,
}

#[derive(Clone, Copy)]
pub struct File {
    pub owner: u32,
    pub group: u32,
    pub dir: bool,
}

// A realm of sixteen zeroes, as jobs started on the server itself have, counts as the default realm.
#[tactic(auto, unfolding(crate::specs::Asking::of_default_realm, words::specs::Realm::same_realm, words::specs::Realm::zero_realm))]
pub(crate) fn is_of_default_realm(caller: Caller, default: Realm) -> bool
    ensures { result ≡ of_default_realm caller default }
{
    caller.realm == Realm::ZERO || caller.realm == default
}

// One of the groups lent. By a `for`: `contains` is a call for each record (tried, 13 instructions more).
fn is_among(groups: &[u32], id: u32) -> bool
    ensures { result ≡ any_of (λ g. eqb g id) groups.now }
{
    for group in groups {
        if *group == id {
            return true;
        }
    }
    false
}

// The caller's primary group, or one of those lent.
#[tactic(auto, unfolding(crate::specs::Asking::in_group))]
pub fn is_in_group(caller: Caller, groups: &[u32], id: u32) -> bool
    ensures { TellsGroup caller groups.now id result }
{
    caller.group == id || is_among(groups, id)
}
