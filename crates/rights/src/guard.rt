// What guards a file.
use words::Realm;

#[derive(Clone, Copy)]
pub enum Guard {
    // The access list that is lent.
    List,
    // A local realm and a mode.
    Mode { realm: Realm, mode: u32 },
}
