// The console: each line of standard input is a command, and each command is answered.
#![tactic(auto)]

mod amounts;
mod answer;
mod asked;
mod calls;
mod command;
mod console;
mod expecting;
mod files;
mod helping;
mod hexes;
mod holding;
mod listing;
mod looking;
mod meaning;
mod mistake;
mod names;
mod output;
mod reading;
mod setting;
mod showing;
mod spaced;
mod texts;

use answer::Failure;
use console::Console;
use mistake::Mistake;
use std::env::FillError;
use std::rt::Env;

// Whether the program was given an argument, however long.
fn has_arguments(rt: &impl Env) -> bool {
    let mut argument = [0u8; 1];
    match rt.arg(1, &mut argument) {
        Ok(_) | Err(FillError::TooLong) => true,
        Err(FillError::NotPresent) => false,
    }
}

fn main(rt: HostRuntime) {
    if has_arguments(&rt) {
        texts::print_line(&Failure::Mistake(Mistake::Arguments));
        return;
    }
    Console::new().serve(&rt);
}
