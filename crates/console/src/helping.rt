// How the lines of commands are written.
use crate::answer::{Answer, Said};
use crate::command::{ALL, Command};
use crate::texts::print_line;

// Of a command, or of all.
pub(crate) fn help(name: &[u8]) -> Said {
    if !name.is_empty() {
        return Ok(Answer::Usage(Command::try_from(name)?));
    }
    for command in ALL {
        print_line(&command.usage());
    }
    Ok(Answer::Number(ALL.len() as u64))
}
