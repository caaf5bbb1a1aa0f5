// Asking what is in the way of a request that its caller may make.
ghost use Rattle.access.specs.Access.{access_in};
ghost use Rattle.desk.specs.Ask.{Asks};

use crate::refusing::first_refusal;
use access::judge;
use claims::Claim;
use rights::Access;
use words::Refusal;

// Each token in the way is listed in slot order; the answer is their count.
pub fn ask(table: &[u8], claim: Claim, access: Access, out: &mut [u8]) -> Result<usize, Refusal>
    ensures { Asks table.now claim (access_in access.entry) out.old result out.new }
{
    if let Err(verdict) = judge(access, claim.types) {
        return Err(first_refusal(table, claim, verdict));
    }
    tokens::ask(table, claim, out)
}
