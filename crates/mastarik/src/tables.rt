// The calls on a token table.
ghost use Rattle.mastarik.specs.Tables.{access_for, Fills, Asks, Grants, GrantsWidest, Returns, DropsHost, Audits};

use exchange::{Answer, Caller, Claim, File, Told, access_of};

pub fn mastarik_fill(table: &mut [u8]) -> Answer
    ensures { Fills table.old result table.new }
{
    desk::fill(table).told()
}

pub fn mastarik_ask(
    table: &[u8],
    claim: Claim,
    list: &[u8],
    groups: &[u32],
    caller: Caller,
    file: File,
    out: &mut [u8],
) -> Answer
    ensures { Asks table.now claim (access_for list.now groups.now caller file) out.old result out.new }
{
    let access = access_of(list, groups, caller, file);
    desk::ask(table, claim.into(), access, out).told()
}

pub fn mastarik_grant(
    table: &mut [u8],
    claim: Claim,
    list: &[u8],
    groups: &[u32],
    caller: Caller,
    file: File,
) -> Answer
    ensures { Grants table.old claim (access_for list.now groups.now caller file) result table.new }
{
    let access = access_of(list, groups, caller, file);
    desk::grant(table, claim.into(), access).told()
}

pub fn mastarik_grant_widest(
    table: &mut [u8],
    claim: Claim,
    list: &[u8],
    groups: &[u32],
    caller: Caller,
    file: File,
) -> Answer
    ensures { GrantsWidest table.old claim (access_for list.now groups.now caller file) result table.new }
{
    let access = access_of(list, groups, caller, file);
    desk::grant_widest(table, claim.into(), access).told()
}

pub fn mastarik_return(table: &mut [u8], host: u16, number: u64, types: u16) -> Answer
    ensures { Returns table.old host number types result table.new }
{
    desk::give_back(table, host, number, types).told()
}

pub fn mastarik_drop_host(table: &mut [u8], host: u16) -> Answer
    ensures { DropsHost table.old host result table.new }
{
    desk::drop_host(table, host).told()
}

pub fn mastarik_audit(table: &[u8]) -> Answer
    ensures { Audits table.now result }
{
    desk::audit(table).told()
}
