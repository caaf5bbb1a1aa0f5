// The calls on an access list.
ghost use Rattle.mastarik.specs.Lists.{Checks, GivesRights, Puts, Drops};

use exchange::{Answer, Caller, Entry, File};

#[unsafe(no_mangle)]
pub extern "C" fn mastarik_check(list: &[u8]) -> Answer
    ensures { Checks list.now result }
{
    mastarik::mastarik_check(list)
}

#[unsafe(no_mangle)]
pub extern "C" fn mastarik_rights(list: &[u8], groups: &[u32], caller: Caller, file: File) -> Answer
    ensures { GivesRights list.now groups.now caller file result }
{
    mastarik::mastarik_rights(list, groups, caller, file)
}

#[unsafe(no_mangle)]
pub extern "C" fn mastarik_put_entry(list: &[u8], entry: Entry, out: &mut [u8]) -> Answer
    ensures { Puts list.now entry out.old result out.new }
{
    mastarik::mastarik_put_entry(list, entry, out)
}

#[unsafe(no_mangle)]
pub extern "C" fn mastarik_drop_entry(list: &[u8], entry: Entry, out: &mut [u8]) -> Answer
    ensures { Drops list.now entry out.old result out.new }
{
    mastarik::mastarik_drop_entry(list, entry, out)
}
