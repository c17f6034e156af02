// A carrier pressed, in any code.
ghost use Rattle.std.specs.Prelude.{◌≡◌, ◌+◌, ◌*◌, ◌/◌, ◌^◌, ◌<◌, true, [], length};
ghost use Rattle.std.specs.List.{flat_map};
ghost use Rattle.cells.specs.Places.{all_cells};

use crate::code::CellCode;
use crate::memory::PressedMemory;
use crate::strip::CarrierStrip;
use cells::strip::{Embosser, Place, Strip};
use std::marker::PhantomData;

// Lent memory, pressed. What it held before is no place, and bytes that are no whole group are never touched. Of every tape
// it holds that no place is spoilt, that its bytes are whole groups, and that its memory is no longer than a slice may be.
#[derive(Drop)]
pub struct CarrierTape<'a, C: CellCode<WIDTH>, const WIDTH: usize> {
    memory: PressedMemory<'a>,
    code: PhantomData<C>,
    ghost fits: { length memory.pressed + length memory.unused < 2 ^ 63 },
    ghost whole: { WIDTH * length (C.places memory.pressed) ≡ length memory.pressed },
    ghost cells: { all_cells (C.places memory.pressed) ≡ true },
}

impl<'a, C: CellCode<WIDTH>, const WIDTH: usize> CarrierTape<'a, C, WIDTH> {
    // A bare tape.
    pub fn new(bytes: &'a mut [u8]) -> Self
        ensures memory { result.memory ≡ record { pressed = []; unused = bytes.old } }
        ensures places { C.places result.memory.pressed ≡ [] }
    {
        CarrierTape {
            memory: PressedMemory::new(bytes),
            code: PhantomData,
        }
    }

    // Ends the tape, and parts its memory: the bytes of the cells pressed, which read back as these, and the bytes
    // behind them, as they were before.
    pub fn finish(self) -> (&'a mut [u8], &'a mut [u8])
        ensures pressed { result.0.now ≡ flat_map C.bytes (C.places self.entry.memory.pressed) }
        ensures reads { C.places result.0.now ≡ C.places self.entry.memory.pressed }
        ensures cells { all_cells (C.places result.0.now) ≡ true }
        ensures unused { result.1.now ≡ self.entry.memory.unused }
    {
        let CarrierTape { memory, code: _ } = self;
        memory.finish()
    }

    // The cells pressed so far.
    fn pressed(&self) -> CarrierStrip<'_, C, WIDTH>
        ensures { result.bytes.now ≡ self.now.memory.pressed }
    {
        CarrierStrip::new(self.memory.pressed())
    }
}

impl<'a, C: CellCode<WIDTH>, const WIDTH: usize> Strip for CarrierTape<'a, C, WIDTH> {
    ghost places = { λ s. C.places s.memory.pressed };

    fn len(&self) -> usize {
        self.pressed().len()
    }

    fn at(&self, place: usize) -> Option<Place> {
        self.pressed().at(place)
    }
}

impl<'a, C: CellCode<WIDTH>, const WIDTH: usize> Embosser for CarrierTape<'a, C, WIDTH> {
    ghost room = { λ s. length s.memory.unused / WIDTH };

    ghost unused = { λ s. s.memory.unused };

    ghost width = { WIDTH };

    fn free(&self) -> usize {
        self.memory.room() / WIDTH
    }

    fn press(&mut self, cell: u8) -> bool {
        let Some(group) = C::bytes_of(cell) else {
            return false;
        };
        self.memory.press(&group)
    }
}
