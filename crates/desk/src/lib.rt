// The calls as the paper has them: ask and the grants with access judged, the others as they are.
#![tactic(auto)]

mod asking;
mod granting;
mod refusing;
mod widening;

pub use asking::ask;
pub use audit::audit;
pub use granting::grant;
pub use returns::{drop_host, give_back};
pub use store::fill;
pub use widening::grant_widest;
