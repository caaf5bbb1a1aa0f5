// The calls on a token table.
ghost use Rattle.mastarik.specs.Tables.{access_for, Fills, Asks, Grants, GrantsWidest, Returns, DropsHost, Audits};

use exchange::{Answer, Caller, Claim, File};

#[unsafe(no_mangle)]
pub extern "C" fn mastarik_fill(table: &mut [u8]) -> Answer
    ensures { Fills table.old result table.new }
{
    mastarik::mastarik_fill(table)
}

#[unsafe(no_mangle)]
pub extern "C" fn mastarik_ask(
    table: &[u8],
    claim: Claim,
    list: &[u8],
    groups: &[u32],
    caller: Caller,
    file: File,
    out: &mut [u8],
) -> Answer
    ensures { Asks table.now claim (access_for list.now groups.now caller file) out.old result out.new }
{
    mastarik::mastarik_ask(table, claim, list, groups, caller, file, out)
}

#[unsafe(no_mangle)]
pub extern "C" fn mastarik_grant(
    table: &mut [u8],
    claim: Claim,
    list: &[u8],
    groups: &[u32],
    caller: Caller,
    file: File,
) -> Answer
    ensures { Grants table.old claim (access_for list.now groups.now caller file) result table.new }
{
    mastarik::mastarik_grant(table, claim, list, groups, caller, file)
}

#[unsafe(no_mangle)]
pub extern "C" fn mastarik_grant_widest(
    table: &mut [u8],
    claim: Claim,
    list: &[u8],
    groups: &[u32],
    caller: Caller,
    file: File,
) -> Answer
    ensures { GrantsWidest table.old claim (access_for list.now groups.now caller file) result table.new }
{
    mastarik::mastarik_grant_widest(table, claim, list, groups, caller, file)
}

#[unsafe(no_mangle)]
pub extern "C" fn mastarik_return(table: &mut [u8], host: u16, number: u64, types: u16) -> Answer
    ensures { Returns table.old host number types result table.new }
{
    mastarik::mastarik_return(table, host, number, types)
}

#[unsafe(no_mangle)]
pub extern "C" fn mastarik_drop_host(table: &mut [u8], host: u16) -> Answer
    ensures { DropsHost table.old host result table.new }
{
    mastarik::mastarik_drop_host(table, host)
}

#[unsafe(no_mangle)]
pub extern "C" fn mastarik_audit(table: &[u8]) -> Answer
    ensures { Audits table.now result }
{
    mastarik::mastarik_audit(table)
}
