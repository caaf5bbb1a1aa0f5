// The static library: every call of `mastarik`, for C, which wants each function written out.
#![tactic(auto)]

mod lists;
mod tables;
mod types;
mod version;

pub use lists::{mastarik_check, mastarik_drop_entry, mastarik_put_entry, mastarik_rights};
pub use tables::{
    mastarik_ask, mastarik_audit, mastarik_drop_host, mastarik_fill, mastarik_grant,
    mastarik_grant_widest, mastarik_return,
};
pub use types::mastarik_needs;
pub use version::mastarik_version;
