// A carrier read, in any code.
ghost use Rattle.std.specs.Prelude.{◌≡◌};

use crate::code::CellCode;
use cells::strip::{Place, Strip};
use std::marker::PhantomData;

// Lent bytes, read.
#[derive(Clone, Copy)]
pub struct CarrierStrip<'a, C, const WIDTH: usize> {
    pub bytes: &'a [u8],
    // public, since a strip in a constant is written as a literal: a constant's value calls no function
    pub code: PhantomData<C>,
}

impl<'a, C: CellCode<WIDTH>, const WIDTH: usize> CarrierStrip<'a, C, WIDTH> {
    pub fn new(bytes: &'a [u8]) -> Self
        ensures { result.bytes.now ≡ bytes.now }
    {
        CarrierStrip {
            bytes,
            code: PhantomData,
        }
    }
}

impl<'a, C: CellCode<WIDTH>, const WIDTH: usize> Strip for CarrierStrip<'a, C, WIDTH> {
    ghost places = { λ s. C.places s.bytes.now };

    fn len(&self) -> usize {
        self.bytes.len().div_ceil(WIDTH)
    }

    // Straight at the place's own bytes: a chunk's iterator would step over all before it.
    fn at(&self, place: usize) -> Option<Place> {
        let start = place.checked_mul(WIDTH)?;
        let (first, _rest) = C::take_place(self.bytes.get(start..)?)?;
        Some(first)
    }
}
