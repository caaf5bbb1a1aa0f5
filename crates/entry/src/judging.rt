// The verdict on a new list, before a byte of it is written.
ghost use Rattle.std.specs.Prelude.{◌≡◌, not, ◌&&◌, []};
ghost use Rattle.words.specs.Said.{done};
ghost use Rattle.words.specs.Refusal.{plain_says};
ghost use Rattle.records.specs.Kind.{wants_mask};
ghost use Rattle.list.specs.Checking.{check_says};
ghost use Rattle.entry.specs.Spot.{has_mask, put_verdict, drop_verdict};

use crate::spot::has_mask;
use list::kind::{ANY_OTHER, MASK_OBJ, OTHER_OBJ};
use list::{LONGEST, Record, is_forbidden, lacks_control};
use words::{Fault, Refusal, realm_at};

// A record that wants a mask_obj, and no mask_obj.
#[tactic(auto, unfolding(records::specs::Kind::wants_mask))]
fn lacks_mask(list: &[u8], kind: u8) -> bool
    requires { check_says list.now ≡ done [] }
    ensures { result ≡ (wants_mask kind && not (has_mask list.now)) }
{
    ANY_OTHER <= kind && !has_mask(list)
}

// The list with r put at a place, n bytes long.
#[tactic(auto, unfolding(crate::specs::Spot::put_verdict, words::specs::Refusal::says_by, words::specs::Refusal::refusal_says, words::specs::Refusal::refusal_number, words::specs::Refusal::number_of, words::specs::Refusal::refusal_value, words::specs::Refusal::values_in))]
pub(crate) fn judge_put(list: &[u8], r: Record, at: usize, n: usize) -> Result<(), Refusal>
    requires { check_says list.now ≡ done [] }
    ensures { plain_says result ≡ put_verdict list.now r at n }
{
    if LONGEST < n {
        return Err(Fault::TooLong.at(0));
    }
    if 63 < r.rights {
        return Err(Fault::RightsAbove63.at(at));
    }
    if is_forbidden(realm_at(list, 1), r) {
        return Err(Fault::ForbiddenRealm.at(at));
    }
    if lacks_mask(list, r.kind) {
        return Err(Fault::MaskMissing.at(n));
    }
    if lacks_control(r) {
        return Err(Fault::ControlMissing.at(n));
    }
    Ok(())
}

// The list without its record of a kind at a place, n bytes long.
#[tactic(auto, unfolding(crate::specs::Spot::drop_verdict, words::specs::Refusal::says_by, words::specs::Refusal::refusal_says, words::specs::Refusal::refusal_number, words::specs::Refusal::number_of, words::specs::Refusal::refusal_value, words::specs::Refusal::values_in))]
pub(crate) fn judge_drop(kind: u8, at: usize, n: usize) -> Result<(), Refusal>
    ensures { plain_says result ≡ drop_verdict kind at n }
{
    if kind <= OTHER_OBJ {
        return Err(Fault::ObjectMissing.at(n));
    }
    if (kind == MASK_OBJ) & (at < n) {
        return Err(Fault::MaskMissing.at(n));
    }
    Ok(())
}
