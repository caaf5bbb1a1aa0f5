// The calls on an access list.
ghost use Rattle.mastarik.specs.Lists.{Checks, GivesRights, Puts, Drops};

use edit::{drop_entry, put_entry};
use evaluate::check_list;
use exchange::{Answer, Caller, Entry, File, Told, access_of};
use rights::decide;

pub fn mastarik_check(list: &[u8]) -> Answer
    ensures { Checks list.now result }
{
    check_list(list).told()
}

pub fn mastarik_rights(list: &[u8], groups: &[u32], caller: Caller, file: File) -> Answer
    ensures { GivesRights list.now groups.now caller file result }
{
    decide(access_of(list, groups, caller, file)).told()
}

pub fn mastarik_put_entry(list: &[u8], entry: Entry, out: &mut [u8]) -> Answer
    ensures { Puts list.now entry out.old result out.new }
{
    put_entry(list, entry.into(), out).told()
}

pub fn mastarik_drop_entry(list: &[u8], entry: Entry, out: &mut [u8]) -> Answer
    ensures { Drops list.now entry out.old result out.new }
{
    drop_entry(list, entry.into(), out).told()
}
