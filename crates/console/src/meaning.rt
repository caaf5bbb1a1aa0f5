// What an answer means, in lines under it.
use crate::answer::{Answer, Failure, Said};
use crate::command::Command;
use crate::holding::Token;
use crate::listing::Placed;
use crate::names::{Names, RIGHTS};
use crate::texts::print_line;
use evaluate::Found;
use list::read_record;
use std::fmt::Display;
use tokens::Granted;
use widest::Range;
use words::{Fault, Refusal, number_at};

// The length of an entry of an ask.
const ENTRY: usize = 13;

fn indented(said: &impl Display) {
    print_line(&format_args!("  {said}"));
}

fn counted(sentence: &str, n: u64) {
    indented(&format_args!("{sentence} {n}"));
}

// What is wrong with a list; its place follows.
fn fault_text(fault: Fault) -> &'static str {
    match fault {
        Fault::TooLong => "list over 4,096 bytes, at place",
        Fault::NoDefaultRealm => "the list does not begin with default_realm, at place",
        Fault::UnknownKind => "unknown kind, at place",
        Fault::CutShort => "body cut short, at place",
        Fault::RightsAbove63 => "rights above 63, at place",
        Fault::OutOfOrder => "out of order or repeated, at place",
        Fault::ForbiddenRealm => "forbidden realm, at place",
        Fault::ObjectMissing => "user_obj, group_obj or other_obj missing, at place",
        Fault::MaskMissing => "no mask_obj, which kinds 6 and above need, at place",
        Fault::ControlMissing => "user_obj lacks control, at place",
    }
}

// What a refusal says. Some go before a place or a count.
fn refusal_text(refusal: Refusal) -> &'static str {
    match refusal {
        Refusal::Faulty { fault, .. } => fault_text(fault),
        Refusal::NothingToDrop => "nothing to drop",
        Refusal::OutputTooShort => "output too short",
        Refusal::ModeAbove511 => "mode above 511",
        Refusal::TooManyGroups => "more than 32 groups",
        Refusal::RightMissing => "a needed right is missing",
        Refusal::NotWellFormed => "table not well formed",
        Refusal::Malformed => "host 0, types 0 or above 255, or first above last",
        Refusal::Conflict => "a conflict exists",
        Refusal::NoFreeSlot => "no free slot",
        Refusal::NumbersSpent => "no number is left",
        Refusal::ListTooShort { .. } => "list buffer too short, the true count is",
        Refusal::NoSuchToken => "no such token of this host",
        Refusal::TypeLacking => "a type that the token lacks",
        Refusal::NoSuchPart => "a part that cannot be given back",
    }
}

fn mean_refusal(refusal: Refusal) {
    match refusal.value() {
        Some(value) => counted(refusal_text(refusal), value as u64),
        None => indented(&refusal_text(refusal)),
    }
}

fn mean_rights(rights: u8) {
    if rights == 0 {
        return indented(&"no rights");
    }
    indented(&Names {
        set: u16::from(rights),
        names: &RIGHTS,
        before: "",
    });
}

// The record that decided; none does at place 0, where the default realm stands.
fn mean_decided(list: &[u8], place: usize) {
    if place == 0 {
        return indented(&"no record decides");
    }
    let tail = list.get(place..).unwrap_or(&[]);
    if let Ok(Some(record)) = read_record(tail) {
        indented(&Placed { place, record });
    }
}

// A line for each token to call back.
fn mean_asked(out: &[u8], tokens: u64) {
    if tokens == 0 {
        return indented(&"nothing is in the way");
    }
    for entry in out.chunks_exact(ENTRY).take(tokens as usize) {
        indented(&Token {
            number: number_at(entry, 1),
            host: number_at(entry, 9),
            types: number_at(entry, 11),
        });
    }
}

fn mean_answer(command: Command, answer: Answer, list: &[u8], out: &[u8]) {
    match (command, answer) {
        (_, Answer::Rights(Found { rights, start, .. })) => {
            mean_rights(rights);
            mean_decided(list, start);
        }
        (_, Answer::Needed(rights)) => mean_rights(rights),
        (Command::Ask, Answer::Number(tokens)) => mean_asked(out, tokens),
        (
            _,
            Answer::Granted(
                Granted {
                    number,
                    range: Range { first, last },
                },
            ),
        ) => indented(&format_args!("the token has number {number}, bytes {first} to {last}")),
        (Command::Grant, Answer::Number(number)) => counted("the token has number", number),
        (Command::Drop, Answer::Number(tokens)) => counted("tokens freed:", tokens),
        (Command::Put | Command::Unput, Answer::Number(length)) => {
            counted("keep makes it the list; its length is", length)
        }
        (_, Answer::Audited(true)) => {
            indented(&"the table is well formed, its numbers differ and nothing conflicts")
        }
        (_, Answer::Audited(false)) => {
            indented(&"the table is not well formed, or a number stands twice, or tokens conflict")
        }
        (Command::Check, Answer::Done) => indented(&"the list passes"),
        _ => {}
    }
}

// Nothing is said under a line that was not understood.
pub(crate) fn mean(command: Command, said: &Said, list: &[u8], out: &[u8]) {
    match said {
        Ok(answer) => mean_answer(command, *answer, list, out),
        Err(Failure::Refused(refusal)) => mean_refusal(*refusal),
        Err(Failure::Mistake(_)) => {}
    }
}
