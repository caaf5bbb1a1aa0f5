// What types need.
ghost use Rattle.mastarik.specs.Types.{TellsNeeds};

use exchange::Answer;

#[unsafe(no_mangle)]
pub extern "C" fn mastarik_needs(types: u16, dir: u8) -> Answer
    ensures { TellsNeeds types dir result }
{
    mastarik::mastarik_needs(types, dir)
}
