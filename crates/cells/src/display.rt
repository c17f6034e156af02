// A refreshable braille display of 40 cells.
ghost use Rattle.std.specs.Prelude.{◌≡◌, ◌-◌, ◌≤◌, [], length};
ghost use Rattle.cells.specs.Places.{cell_places};

use crate::cell_strip::CellStrip;
use crate::strip::{Embosser, Place, Strip};
use arrayvec::ArrayVec;

#[derive(Drop)]
pub struct BrailleDisplay {
    cells: ArrayVec<u8, 40>,
    ghost fits: { length cells.items ≤ 40 },
}

impl BrailleDisplay {
    // A display with no pins up.
    pub fn new() -> Self
        ensures { result.cells.items ≡ [] }
    {
        BrailleDisplay {
            cells: ArrayVec::new(),
        }
    }

    fn shown(&self) -> CellStrip<'_>
        ensures { result.0.now ≡ self.now.cells.items }
    {
        CellStrip(self.cells.as_slice())
    }
}

impl Strip for BrailleDisplay {
    ghost places = { λ d. cell_places d.cells.items };

    fn len(&self) -> usize {
        self.cells.len()
    }

    fn at(&self, place: usize) -> Option<Place> {
        self.shown().at(place)
    }
}

impl Embosser for BrailleDisplay {
    ghost room = { λ d. 40 - length d.cells.items };

    fn free(&self) -> usize {
        self.cells.remaining_capacity()
    }

    fn press(&mut self, cell: u8) -> bool {
        cell < 64 && self.cells.try_push(cell).is_ok()
    }
}
