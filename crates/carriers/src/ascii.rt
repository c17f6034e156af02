// The ASCII carrier: one Braille ASCII byte a cell, letters in upper case.
ghost use Rattle.std.specs.Prelude.{◌≡◌, ◌/◌, true, [], length};
ghost use Rattle.std.specs.List.{flat_map};
ghost use Rattle.cells.specs.Places.{all_cells};
ghost use Rattle.carriers.specs.Carriers.{ascii_bytes, ascii_places, first_byte};
ghost use Rattle.carriers.specs.AsciiLaws.{ascii_laws};

use crate::code::CellCode;
use crate::strip::CarrierStrip;
use crate::tape::CarrierTape;
use cells::ascii;
use cells::strip::{Embosser, Place, Strip};

#[derive(Clone, Copy)]
pub struct Ascii;

pub type AsciiStrip<'a> = CarrierStrip<'a, Ascii, 1>;

impl CellCode<1> for Ascii {
    ghost places = { ascii_places };

    ghost first = { first_byte };

    ghost bytes = { ascii_bytes };

    ghost laws = { ascii_laws };

    fn take_place(carrier: &[u8]) -> Option<(Place, &[u8])> {
        let (byte, rest) = carrier.split_first()?;
        Some((
            ascii::cell_of(*byte).map_or(Place::Spoilt, Place::Cell),
            rest,
        ))
    }

    fn bytes_of(cell: u8) -> Option<[u8; 1]> {
        Some([ascii::byte_of(cell)?])
    }
}

// A tape in this code, as a type with no parameter: one with ghost fields and a parameter cannot stand behind `dyn`.
#[derive(Drop)]
pub struct AsciiTape<'a> {
    pub tape: CarrierTape<'a, Ascii, 1>,
}

impl<'a> AsciiTape<'a> {
    // A bare tape.
    pub fn new(bytes: &'a mut [u8]) -> Self
        ensures memory { result.tape.memory ≡ record { pressed = []; unused = bytes.old } }
        ensures places { ascii_places result.tape.memory.pressed ≡ [] }
    {
        AsciiTape {
            tape: CarrierTape::new(bytes),
        }
    }

    // Ends the tape, and parts its memory.
    pub fn finish(self) -> (&'a mut [u8], &'a mut [u8])
        ensures pressed { result.0.now ≡ flat_map ascii_bytes (ascii_places self.entry.tape.memory.pressed) }
        ensures reads { ascii_places result.0.now ≡ ascii_places self.entry.tape.memory.pressed }
        ensures cells { all_cells (ascii_places result.0.now) ≡ true }
        ensures unused { result.1.now ≡ self.entry.tape.memory.unused }
    {
        self.tape.finish()
    }
}

impl<'a> Strip for AsciiTape<'a> {
    ghost places = { λ s. ascii_places s.tape.memory.pressed };

    fn len(&self) -> usize {
        self.tape.len()
    }

    fn at(&self, place: usize) -> Option<Place> {
        self.tape.at(place)
    }
}

impl<'a> Embosser for AsciiTape<'a> {
    ghost room = { λ s. length s.tape.memory.unused / 1 };

    ghost unused = { λ s. s.tape.memory.unused };

    ghost width = { 1 };

    fn free(&self) -> usize {
        self.tape.free()
    }

    fn press(&mut self, cell: u8) -> bool {
        self.tape.press(cell)
    }
}
