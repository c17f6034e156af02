// The Unicode carrier: the three bytes of a character of U+2800 to U+283F a cell.
ghost use Rattle.std.specs.Prelude.{◌≡◌, ◌/◌, true, [], length};
ghost use Rattle.std.specs.List.{flat_map};
ghost use Rattle.cells.specs.Places.{all_cells};
ghost use Rattle.carriers.specs.Carriers.{unicode_bytes, unicode_places, first_group};
ghost use Rattle.carriers.specs.UnicodeLaws.{unicode_laws};

use crate::code::CellCode;
use crate::strip::CarrierStrip;
use crate::tape::CarrierTape;
use cells::strip::{Embosser, Place, Strip};

#[derive(Clone, Copy)]
pub struct Unicode;

pub type UnicodeStrip<'a> = CarrierStrip<'a, Unicode, 3>;

impl CellCode<3> for Unicode {
    ghost places = { unicode_places };

    ghost first = { first_group };

    ghost bytes = { unicode_bytes };

    ghost laws = { unicode_laws };

    fn take_place(carrier: &[u8]) -> Option<(Place, &[u8])> {
        match carrier {
            [] => None,
            [0xE2, 0xA0, last @ 0x80..=0xBF, rest @ ..] => Some((Place::Cell(*last - 0x80), rest)),
            [_, _, _, rest @ ..] => Some((Place::Spoilt, rest)),
            _ => Some((Place::Spoilt, &[])),
        }
    }

    fn bytes_of(cell: u8) -> Option<[u8; 3]> {
        match cell {
            0..=63 => Some([0xE2, 0xA0, 0x80 + cell]),
            _ => None,
        }
    }
}

// A tape in this code, as a type with no parameter: one with ghost fields and a parameter cannot stand behind `dyn`.
#[derive(Drop)]
pub struct UnicodeTape<'a> {
    pub tape: CarrierTape<'a, Unicode, 3>,
}

impl<'a> UnicodeTape<'a> {
    // A bare tape.
    pub fn new(bytes: &'a mut [u8]) -> Self
        ensures memory { result.tape.memory ≡ record { pressed = []; unused = bytes.old } }
        ensures places { unicode_places result.tape.memory.pressed ≡ [] }
    {
        UnicodeTape {
            tape: CarrierTape::new(bytes),
        }
    }

    // Ends the tape, and parts its memory.
    pub fn finish(self) -> (&'a mut [u8], &'a mut [u8])
        ensures pressed { result.0.now ≡ flat_map unicode_bytes (unicode_places self.entry.tape.memory.pressed) }
        ensures reads { unicode_places result.0.now ≡ unicode_places self.entry.tape.memory.pressed }
        ensures cells { all_cells (unicode_places result.0.now) ≡ true }
        ensures unused { result.1.now ≡ self.entry.tape.memory.unused }
    {
        self.tape.finish()
    }
}

impl<'a> Strip for UnicodeTape<'a> {
    ghost places = { λ s. unicode_places s.tape.memory.pressed };

    fn len(&self) -> usize {
        self.tape.len()
    }

    fn at(&self, place: usize) -> Option<Place> {
        self.tape.at(place)
    }
}

impl<'a> Embosser for UnicodeTape<'a> {
    ghost room = { λ s. length s.tape.memory.unused / 3 };

    ghost unused = { λ s. s.tape.memory.unused };

    ghost width = { 3 };

    fn free(&self) -> usize {
        self.tape.free()
    }

    fn press(&mut self, cell: u8) -> bool {
        self.tape.press(cell)
    }
}
