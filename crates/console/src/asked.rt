// What the calls are judged by, as the console remembers it.
use arrayvec::ArrayVec;
use evaluate::{Caller, File};
use rights::{Access, Guard};
use words::Realm;

#[derive(Drop)]
pub struct Asked {
    pub list: ArrayVec<u8, 16384>,
    pub caller: Caller,
    // The caller's further groups.
    pub groups: ArrayVec<u32, 40>,
    pub file: File,
    pub guard: Guard,
}

impl Asked {
    pub(crate) fn new() -> Asked {
        Asked {
            list: ArrayVec::new(),
            caller: Caller {
                realm: Realm::ZERO,
                user: 0,
                group: 0,
            },
            groups: ArrayVec::new(),
            file: File {
                owner: 0,
                group: 0,
                dir: false,
            },
            guard: Guard::List,
        }
    }

    pub(crate) fn access(&self) -> Access<'_, '_> {
        Access {
            list: &self.list,
            groups: &self.groups,
            caller: self.caller,
            file: self.file,
            guard: self.guard,
        }
    }
}
