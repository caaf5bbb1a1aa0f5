// Granting a token with the widest range to a caller who may have it.
ghost use Rattle.access.specs.Access.{access_in};
ghost use Rattle.desk.specs.Widest.{GrantsWidest};

use crate::refusing::first_refusal;
use access::judge;
use claims::Claim;
use rights::Access;
use tokens::Granted;
use words::Refusal;

// As grant, with the widest range; the answer is the new token's number and that range.
pub fn grant_widest(table: &mut [u8], claim: Claim, access: Access) -> Result<Granted, Refusal>
    ensures { GrantsWidest table.old claim (access_in access.entry) result table.new }
{
    if let Err(verdict) = judge(access, claim.types) {
        return Err(first_refusal(table, claim, verdict));
    }
    tokens::grant_widest(table, claim)
}
