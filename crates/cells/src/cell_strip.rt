// A strip over a list of numbers, as cells are pressed and shown.
ghost use Rattle.cells.specs.Places.{cell_places};

use crate::strip::{Place, Strip};

// Lent cells, read; a number above 63 is spoilt.
#[derive(Clone, Copy)]
pub struct CellStrip<'a>(pub &'a [u8]);

impl<'a> Strip for CellStrip<'a> {
    ghost places = { λ s. cell_places s.0.now };

    fn len(&self) -> usize {
        self.0.len()
    }

    fn at(&self, place: usize) -> Option<Place> {
        self.0.get(place).copied().map(Place::from)
    }
}
