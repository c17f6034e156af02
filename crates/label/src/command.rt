// The arguments of the program.
ghost use Rattle.std.specs.Result.{result_ok};
ghost use Rattle.console.specs.Words.{Names};
ghost use Rattle.label.specs.Words.{flag_name, verb_name};

use crate::failure::Failure;
use console::carrier::{Carrier, UnknownCarrier};
use console::house::house_codes;
use std::alloc::Global;
use std::env::Args;
use std::str::FromStr;
use thiserror::Error;

// Why the arguments are no command.
#[derive(Clone, Copy, Debug, Error)]
pub(crate) enum UsageError {
    #[error("no such command")]
    UnknownCommand,
    #[error("no such option")]
    UnknownOption,
    #[error("an option stands twice")]
    OptionTwice,
    #[error("an option lacks its carrier")]
    LacksCarrier,
    #[error(transparent)]
    Carrier(#[from] UnknownCarrier),
    #[error("an option lacks its house codes")]
    LacksHouseCodes,
    #[error("a house code is one character, or U+ and hexadecimal digits")]
    HouseCode,
    #[error("convert wants --from and --to")]
    ConvertWantsCarriers,
    #[error("convert takes no --house")]
    ConvertTakesNoHouse,
    #[error("show takes no --to")]
    ShowTakesNoTo,
    #[error("show takes no --house")]
    ShowTakesNoHouse,
    #[error("signs takes no carrier")]
    SignsTakesNoCarrier,
    #[error("help takes no options")]
    HelpTakesNoOptions,
}

// The first word.
#[derive(Clone, Copy)]
enum Verb {
    Convert,
    Show,
    Signs,
    Help,
}

// A table of its own, as for all enums that a word names.
impl FromStr for Verb {
    type Err = UsageError;

    ghost from_str_gives = { λ word named. Names verb_name word (result_ok named) };

    fn from_str(word: &str) -> Result<Verb, UsageError> {
        match word {
            "convert" => Ok(Verb::Convert),
            "show" => Ok(Verb::Show),
            "signs" => Ok(Verb::Signs),
            "help" => Ok(Verb::Help),
            _ => Err(UsageError::UnknownCommand),
        }
    }
}

#[derive(Clone, Copy)]
enum Flag {
    From,
    To,
    House,
}

// A table of its own, as for verbs.
impl FromStr for Flag {
    type Err = UsageError;

    ghost from_str_gives = { λ word named. Names flag_name word (result_ok named) };

    fn from_str(word: &str) -> Result<Flag, UsageError> {
        match word {
            "--from" => Ok(Flag::From),
            "--to" => Ok(Flag::To),
            "--house" => Ok(Flag::House),
            _ => Err(UsageError::UnknownOption),
        }
    }
}

fn carrier(word: Option<String>) -> Result<Carrier, UsageError> {
    Ok(word.ok_or(UsageError::LacksCarrier)?.parse()?)
}

fn codes(heap: Global, word: Option<String>) -> Result<Vec<u32>, Failure> {
    let word = word.ok_or(UsageError::LacksHouseCodes)?;
    Ok(house_codes(heap, &word)?.ok_or(UsageError::HouseCode)?)
}

fn put_once<X: Drop>(option: &mut Option<X>, value: X) -> Result<(), UsageError> {
    match option.replace(value) {
        None => Ok(()),
        Some(_) => Err(UsageError::OptionTwice),
    }
}

// What the options say.
#[derive(Default, Drop)]
struct Options {
    from: Option<Carrier>,
    to: Option<Carrier>,
    house: Option<Vec<u32>>,
}

impl Options {
    fn parse(heap: Global, mut words: Args) -> Result<Options, Failure> {
        let mut options = Options::default();
        while let Some(word) = words.next() {
            match word.parse()? {
                Flag::From => put_once(&mut options.from, carrier(words.next())?)?,
                Flag::To => put_once(&mut options.to, carrier(words.next())?)?,
                Flag::House => put_once(&mut options.house, codes(heap, words.next())?)?,
            }
        }
        Ok(options)
    }
}

#[derive(Drop)]
pub(crate) enum Command {
    Demonstrate,
    Convert { from: Carrier, to: Carrier },
    Show(Carrier),
    // the sign table, under these house codes
    Signs(Vec<u32>),
    Help,
}

impl Command {
    pub(crate) fn parse(heap: Global, mut args: Args) -> Result<Command, Failure> {
        // the first argument is the program's own name
        let Some(verb) = args.nth(1) else {
            return Ok(Command::Demonstrate);
        };
        let verb = verb.parse()?;
        let options = Options::parse(heap, args)?;
        Ok(Command::of(heap, verb, options)?)
    }

    fn of(heap: Global, verb: Verb, options: Options) -> Result<Command, UsageError> {
        let Options { from, to, house } = options;
        match (verb, from, to, house) {
            (Verb::Convert, Some(from), Some(to), None) => Ok(Command::Convert { from, to }),
            (Verb::Convert, _, _, None) => Err(UsageError::ConvertWantsCarriers),
            (Verb::Convert, _, _, Some(_)) => Err(UsageError::ConvertTakesNoHouse),
            (Verb::Show, from, None, None) => Ok(Command::Show(from.unwrap_or(Carrier::Ascii))),
            (Verb::Show, _, Some(_), None) => Err(UsageError::ShowTakesNoTo),
            (Verb::Show, _, _, Some(_)) => Err(UsageError::ShowTakesNoHouse),
            (Verb::Signs, None, None, house) => {
                Ok(Command::Signs(house.unwrap_or_else(|| Vec::new(heap))))
            }
            (Verb::Signs, _, _, _) => Err(UsageError::SignsTakesNoCarrier),
            (Verb::Help, None, None, None) => Ok(Command::Help),
            (Verb::Help, _, _, _) => Err(UsageError::HelpTakesNoOptions),
        }
    }
}
