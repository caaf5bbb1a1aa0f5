// Granting a token to a caller who may have it.
ghost use Rattle.access.specs.Access.{access_in};
ghost use Rattle.desk.specs.Grant.{Grants};

use crate::refusing::first_refusal;
use access::judge;
use claims::Claim;
use rights::Access;
use words::Refusal;

// The answer is the new token's number.
pub fn grant(table: &mut [u8], claim: Claim, access: Access) -> Result<u64, Refusal>
    ensures { Grants table.old claim (access_in access.entry) result table.new }
{
    if let Err(verdict) = judge(access, claim.types) {
        return Err(first_refusal(table, claim, verdict));
    }
    tokens::grant(table, claim)
}
