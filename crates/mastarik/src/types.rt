// What types need.
ghost use Rattle.mastarik.specs.Types.{TellsNeeds};

use access::needed_rights;
use exchange::{Answer, Told};

pub fn mastarik_needs(types: u16, dir: u8) -> Answer
    ensures { TellsNeeds types dir result }
{
    u64::from(needed_rights(types, dir != 0)).told()
}
