// The program `label`: tapes of braille labels at the command line.
#![tactic(auto)]

mod command;
mod demonstration;
mod failure;
mod sign_table;
mod tape;

use command::Command;
use failure::Failure;
use std::env;
use std::io::{self, Read};
use std::process::ExitCode;

const USAGE: &str = "usage:
  label                              press a first strip on both carriers and the display
  label convert --from CARRIER --to CARRIER
                                     read a tape and write it in the other carrier
  label show [--from CARRIER]        print a tape in dots and in Braille ASCII
  label signs [--house CODES]        print the sign table
  label help                         print this text

A tape comes from standard input, and CARRIER is ascii or unicode. The ASCII carrier
has one byte a cell, letters in upper case; the Unicode carrier has the three bytes of
U+2800 to U+283F a cell. Neither has a line end. show takes ascii where nothing is said.
CODES is one argument of up to five signs of the house, with blanks between them: each a
character, or U+ and hexadecimal digits. They take the strings @#? ^#? _#? \"#? .#? in turn.
";

fn input(rt: &HostRuntime) -> io::Result<Vec<u8>> {
    let mut bytes = Vec::new(rt.alloc());
    rt.stdin().read_to_end(&mut bytes)?;
    Ok(bytes)
}

fn run(rt: &HostRuntime) -> Result<(), Failure> {
    match Command::parse(rt.alloc(), env::args(rt)?)? {
        Command::Demonstrate => demonstration::run(rt),
        Command::Convert { from, to } => tape::convert_input(rt, &input(rt)?, from, to),
        Command::Show(from) => tape::show_input(rt, &input(rt)?, from),
        Command::Signs(codes) => sign_table::print_signs(rt, &codes),
        Command::Help => Ok(print!(rt; "{USAGE}")?),
    }
}

// Every failure is told on standard error, and ends the program with status 1.
fn main(rt: HostRuntime) -> ExitCode {
    let Err(failure) = run(&rt) else {
        return ExitCode::SUCCESS;
    };
    let _ = eprintln!(rt; "label: {failure}");
    if let Failure::Usage(_) = failure {
        let _ = eprint!(rt; "{USAGE}");
    }
    ExitCode::FAILURE
}
