// Rights from a local realm and a mode.
ghost use Rattle.std.specs.Prelude.{◌≡◌};
ghost use Rattle.rights.specs.Mode.{digit_rights, class_rights, with_write, mode_rights};

use crate::right::{CONTROL, DELETE, INSERT};
use evaluate::{Caller, File, is_in_group};
use words::Realm;

// In an octal digit 4 is read, 2 write, 1 execute.
#[tactic(auto, unfolding(crate::specs::Mode::digit_rights, crate::specs::Right::read, crate::specs::Right::write, crate::specs::Right::execute))]
fn digit_rights(digit: u32) -> u8
    ensures { result ≡ digit_rights digit }
{
    (digit / 4 % 2 + digit / 2 % 2 * 2 + digit % 2 * 4) as u8
}

// By the first class that the caller belongs to: owner, group, other.
#[tactic(auto, unfolding(crate::specs::Mode::class_rights, crate::specs::Right::control))]
fn class_rights(groups: &[u32], caller: Caller, file: File, mode: u32) -> u8
    ensures { result ≡ class_rights groups.now caller file mode }
{
    if caller.user == file.owner {
        return digit_rights(mode / 64 % 8) | CONTROL;
    }
    if is_in_group(caller, groups, file.group) {
        return digit_rights(mode / 8 % 8);
    }
    digit_rights(mode % 8)
}

// On a directory, write brings insert and delete.
#[tactic(auto, using(crate::proofs::Choosing::write_brings, crate::proofs::Choosing::nothing_brought))]
fn with_write(dir: bool, rights: u8) -> u8
    ensures { result ≡ with_write dir rights }
{
    if dir & (rights / 2 % 2 == 1) {
        return rights | INSERT | DELETE;
    }
    rights
}

// By the first class, for a caller of the local realm; sixteen zeroes are a realm like any other here.
#[tactic(auto, unfolding(crate::specs::Mode::mode_rights, words::specs::Realm::same_realm))]
pub(crate) fn mode_rights(groups: &[u32], caller: Caller, file: File, local: Realm, mode: u32) -> u8
    ensures { result ≡ mode_rights groups.now caller file local mode }
{
    if caller.realm != local {
        return 0;
    }
    with_write(file.dir, class_rights(groups, caller, file, mode))
}
