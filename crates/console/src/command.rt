// The commands: their names, how a line of each is written, and of how many words.
use crate::mistake::Mistake;
use crate::spaced::word;

#[derive(Clone, Copy, PartialEq, Eq)]
pub enum Command {
    Table,
    Load,
    Save,
    List,
    Keep,
    Caller,
    File,
    Guard,
    Room,
    Show,
    Held,
    Records,
    Total,
    Fill,
    Drop,
    Audit,
    Ask,
    Grant,
    Widest,
    Return,
    Check,
    Rights,
    Needs,
    Put,
    Unput,
    Words,
    Help,
    Quit,
    Expect,
}

// Each command, in the order of `help`.
pub(crate) const ALL: [Command; 29] = [
    Command::Table,
    Command::Load,
    Command::Save,
    Command::List,
    Command::Keep,
    Command::Caller,
    Command::File,
    Command::Guard,
    Command::Room,
    Command::Show,
    Command::Held,
    Command::Records,
    Command::Total,
    Command::Fill,
    Command::Drop,
    Command::Audit,
    Command::Ask,
    Command::Grant,
    Command::Widest,
    Command::Return,
    Command::Check,
    Command::Rights,
    Command::Needs,
    Command::Put,
    Command::Unput,
    Command::Words,
    Command::Help,
    Command::Quit,
    Command::Expect,
];

impl Command {
    // How a line of the command is written, its name first.
    pub(crate) fn usage(self) -> &'static str {
        match self {
            Command::Table => "table N | table hex BYTES",
            Command::Load => "load FILE",
            Command::Save => "save FILE",
            Command::List => "list BYTES",
            Command::Keep => "keep [LENGTH]",
            Command::Caller => "caller REALM USER GROUP [GROUP..]",
            Command::File => "file OWNER GROUP file|dir",
            Command::Guard => "guard list | guard mode REALM MODE",
            Command::Room => "room BYTES",
            Command::Show => "show table|list|caller|file|guard | show out LENGTH",
            Command::Held => "held",
            Command::Records => "records",
            Command::Total => "total",
            Command::Fill => "fill",
            Command::Drop => "drop HOST",
            Command::Audit => "audit",
            Command::Ask => "ask HOST TYPES FILE FIRST LAST",
            Command::Grant => "grant HOST TYPES FILE FIRST LAST",
            Command::Widest => "widest HOST TYPES FILE FIRST LAST",
            Command::Return => "return HOST NUMBER TYPES",
            Command::Check => "check",
            Command::Rights => "rights",
            Command::Needs => "needs TYPES",
            Command::Put => "put KIND REALM ID RIGHTS",
            Command::Unput => "unput KIND REALM ID [RIGHTS]",
            Command::Words => "words on|off",
            Command::Help => "help [COMMAND]",
            Command::Quit => "quit",
            Command::Expect => "= ANSWER",
        }
    }

    fn name(self) -> &'static [u8] {
        word(self.usage().as_bytes(), 0)
    }

    // The fewest words of a line, the name among them.
    fn fewest(self) -> usize {
        match self {
            Command::Table | Command::Load | Command::Save | Command::List => 2,
            Command::Guard | Command::Room | Command::Drop | Command::Show => 2,
            Command::Needs | Command::Words => 2,
            Command::Caller | Command::File | Command::Return | Command::Unput => 4,
            Command::Put => 5,
            Command::Ask | Command::Grant | Command::Widest => 6,
            _ => 1,
        }
    }

    // How many more there may be: `table hex BYTES`, `guard mode REALM MODE`, `show out LENGTH`, a caller's further groups, the
    // length that is kept, the rights of a drop, the command to help with, the words of an answer.
    fn optional(self) -> usize {
        match self {
            Command::Table | Command::Show | Command::Keep | Command::Unput | Command::Help => 1,
            Command::Guard => 2,
            Command::Caller => 40,
            Command::Expect => 16384,
            _ => 0,
        }
    }

    // Whether a line may have so many words.
    pub(crate) fn takes(self, words: usize) -> bool {
        let fewest = self.fewest();
        fewest <= words && words - fewest <= self.optional()
    }
}

// By its name.
impl TryFrom<&[u8]> for Command {
    type Error = Mistake;

    fn try_from(name: &[u8]) -> Result<Self, Mistake> {
        ALL.iter()
            .copied()
            .find(|command| command.name() == name)
            .ok_or(Mistake::UnknownCommand)
    }
}
