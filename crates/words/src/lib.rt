// Numbers and realms in bytes: big-endian, read and compared.
#![tactic(auto)]

mod number;
mod realm;
mod refusal;

pub use number::{Number, holds, number_at};
pub use realm::{Realm, is_unknown, realm_at};
pub use refusal::{Fault, Refusal};
