// Access judged, apart from any table.
ghost use Rattle.std.specs.Prelude.{◌≡◌};
ghost use Rattle.words.specs.Refusal.{plain_says};
ghost use Rattle.access.specs.Access.{access_in, sufficient, Judges};

use crate::needs::needed_rights;
use rights::{Access, decide};
use words::Refusal;

fn sufficient(rights: u8, needs: u8) -> Result<(), Refusal>
    ensures { plain_says result ≡ sufficient rights needs }
{
    if (rights & needs) != needs {
        return Err(Refusal::RightMissing);
    }
    Ok(())
}

// Whether the caller may claim the types of the file.
pub fn judge(access: Access, types: u16) -> Result<(), Refusal>
    ensures { Judges (access_in access.entry) types result }
{
    let found = decide(access)?;
    sufficient(found.rights, needed_rights(types, access.file.dir))
}
