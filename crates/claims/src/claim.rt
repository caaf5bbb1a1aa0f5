// What a token or a request claims.
ghost use Rattle.claims.specs.Claim.{TellsUnfit, TellsMalformed};

// Twelve bytes.
#[derive(Clone, Copy, PartialEq, Eq)]
pub struct FileId {
    pub hi: u64,
    pub lo: u32,
}

// The range's first and last byte are both included.
#[derive(Clone, Copy)]
pub struct Claim {
    pub types: u16,
    pub host: u16,
    pub file: FileId,
    pub first: u64,
    pub last: u64,
}

// Refusal 31 where no range is given: host 0, types 0 or above the limit.
#[tactic(auto, unfolding(crate::specs::Claim::unfit))]
pub fn is_unfit(host: u16, types: u16, limit: u16) -> bool
    ensures { TellsUnfit host types limit result }
{
    (host == 0) | (types == 0) | (limit < types)
}

// Refusal 31: unfit, or first above last.
#[tactic(auto, unfolding(crate::specs::Claim::malformed))]
pub fn is_malformed(claim: Claim, limit: u16) -> bool
    ensures { TellsMalformed claim limit result }
{
    is_unfit(claim.host, claim.types, limit) | (claim.last < claim.first)
}
