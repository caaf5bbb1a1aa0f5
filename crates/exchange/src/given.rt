// What a call is given, as C has it: realms and file ids are bytes, and what is no 0 is a yes.
ghost use Rattle.exchange.specs.Meaning.{Means};
ghost use Rattle.exchange.specs.Given.{caller_of, file_of, guard_of, entry_of, claim_of, Lends};

use claims::FileId;
use rights::{Access, Guard};
use words::{number_at, realm_at};

#[repr(C)]
#[derive(Clone, Copy)]
pub struct Caller {
    pub realm: [u8; 16],
    pub user: u32,
    pub group: u32,
}

// The lent list guards it where `moded`, which is C's `by_mode`, is 0; else the local realm and the mode.
#[repr(C)]
#[derive(Clone, Copy)]
pub struct File {
    pub owner: u32,
    pub group: u32,
    pub dir: u8,
    pub moded: u8,
    pub realm: [u8; 16],
    pub mode: u32,
}

#[repr(C)]
#[derive(Clone, Copy)]
pub struct Entry {
    pub kind: u8,
    pub rights: u8,
    pub realm: [u8; 16],
    pub id: u32,
}

#[repr(C)]
#[derive(Clone, Copy)]
pub struct Claim {
    pub types: u16,
    pub host: u16,
    pub file: [u8; 12],
    pub first: u64,
    pub last: u64,
}

impl From<Caller> for evaluate::Caller {
    ghost from_gives = { λ caller r. Means (caller_of caller) r };

    #[tactic(auto, unfolding(crate::specs::Given::caller_of))]
    fn from(caller: Caller) -> evaluate::Caller {
        evaluate::Caller {
            realm: realm_at(&caller.realm, 0),
            user: caller.user,
            group: caller.group,
        }
    }
}

impl From<File> for evaluate::File {
    ghost from_gives = { λ file r. Means (file_of file) r };

    #[tactic(auto, unfolding(crate::specs::Given::file_of))]
    fn from(file: File) -> evaluate::File {
        evaluate::File {
            owner: file.owner,
            group: file.group,
            dir: file.dir != 0,
        }
    }
}

impl From<File> for Guard {
    ghost from_gives = { λ file r. Means (guard_of file) r };

    #[tactic(auto, unfolding(crate::specs::Given::guard_of))]
    fn from(file: File) -> Guard {
        if file.moded == 0 {
            return Guard::List;
        }
        Guard::Mode {
            realm: realm_at(&file.realm, 0),
            mode: file.mode,
        }
    }
}

impl From<Entry> for edit::Entry {
    ghost from_gives = { λ entry r. Means (entry_of entry) r };

    #[tactic(auto, unfolding(crate::specs::Given::entry_of))]
    fn from(entry: Entry) -> edit::Entry {
        edit::Entry {
            kind: entry.kind,
            realm: realm_at(&entry.realm, 0),
            id: entry.id,
            rights: entry.rights,
        }
    }
}

impl From<Claim> for claims::Claim {
    ghost from_gives = { λ claim r. Means (claim_of claim) r };

    #[tactic(auto, unfolding(crate::specs::Given::claim_of))]
    fn from(claim: Claim) -> claims::Claim {
        claims::Claim {
            types: claim.types,
            host: claim.host,
            file: FileId {
                hi: number_at(&claim.file, 0),
                lo: number_at(&claim.file, 8),
            },
            first: claim.first,
            last: claim.last,
        }
    }
}

// Who asks, for which file, and what guards it.
pub fn access_of<'a, 'g>(
    list: &'a [u8],
    groups: &'g [u32],
    caller: Caller,
    file: File,
) -> Access<'a, 'g>
    ensures { Lends list.now groups.now caller file result }
{
    Access {
        list,
        groups,
        caller: caller.into(),
        file: file.into(),
        guard: file.into(),
    }
}
