// Tapes, written in the other carrier or shown to a person.
use crate::failure::Failure;
use carriers::ascii::AsciiStrip;
use carriers::unicode::UnicodeStrip;
use cells::refusal::CopyRefusal;
use cells::strip::Strip;
use console::carrier::Carrier;
use console::convert::convert;
use console::show::Notation;
use std::alloc::{AllocError, Global};
use std::fmt;
use std::io::{self, Write};
use std::ops::Range;

// Writes the input in the other carrier, or nothing.
pub(crate) fn convert_input(
    rt: &(impl Print + AllocGlobal),
    input: &[u8],
    from: Carrier,
    to: Carrier,
) -> Result<(), Failure> {
    let size = input.len().checked_mul(to.width()).ok_or(Failure::TooLong)?;
    let mut memory = vec![in rt.alloc(); 0; size]?;
    match convert(from, input, to, &mut memory) {
        Ok(pressed) => Ok(io::writer(rt).write_all(pressed)?),
        Err(refusal @ CopyRefusal::SpoiltAt(place)) => {
            let found = Hexadecimal(from.group(input, place)).to_string(rt.alloc())?;
            Err(Failure::Spoilt { refusal, found })
        }
        Err(refusal) => Err(Failure::Refused(refusal)),
    }
}

pub(crate) fn show_input(
    rt: &(impl Print + AllocGlobal),
    input: &[u8],
    from: Carrier,
) -> Result<(), Failure> {
    // A line for each carrier, since its code is a type.
    match from {
        Carrier::Ascii => show(rt, &AsciiStrip::new(input)),
        Carrier::Unicode => show(rt, &UnicodeStrip::new(input)),
    }
}

// The cells in a row.
const ROW: usize = 40;

// Prints rows of dots with their Braille ASCII below, each with the number of its first place.
pub(crate) fn show<S: Strip>(rt: &(impl Print + AllocGlobal), strip: &S) -> Result<(), Failure> {
    println!(rt; "       0         10        20        30")?;
    for start in (0..strip.len()).step_by(ROW) {
        let end = start.saturating_add(ROW);
        let dots = row(rt.alloc(), strip, start..end, Notation::Dots)?;
        let characters = row(rt.alloc(), strip, start..end, Notation::BrailleAscii)?;
        println!(rt; "{start:>5}  {dots}\n       {characters}")?;
    }
    Ok(())
}

// These places of a strip, as far as it goes.
pub(crate) fn row<S: Strip>(
    heap: Global,
    strip: &S,
    places: Range<usize>,
    notation: Notation,
) -> Result<String, AllocError> {
    places
        .filter_map(|at| strip.at(at))
        .map(|place| notation.show(place))
        .collect(heap)
}

// Bytes in hexadecimal, with blanks between them. (Nothing of the library parts what is printed piece by piece.)
#[derive(Clone, Copy)]
pub(crate) struct Hexadecimal<'a>(pub(crate) &'a [u8]);

impl fmt::Display for Hexadecimal<'_> {
    fn fmt<W: fmt::Write>(&self, f: &mut fmt::Formatter<W>) -> fmt::Result {
        for (at, byte) in self.0.iter().enumerate() {
            if at > 0 {
                f.write_str(" ")?;
            }
            write!(f, "{byte:02X}")?;
        }
        Ok(())
    }
}
