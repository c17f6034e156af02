// Every cell, pressed and read in some code.
use crate::alike::alike;
use carriers::code::CellCode;
use carriers::strip::CarrierStrip;
use carriers::tape::CarrierTape;
use cells::strip::{Embosser, Place, Strip};

// Whether a carrier of cells 0 to 63 reads as these, and pressing them fills the memory with its bytes.
pub(crate) fn has_every_cell<C: CellCode<WIDTH>, const WIDTH: usize>(
    carrier: &[u8],
    memory: &mut [u8],
) -> bool {
    let mut tape = CarrierTape::<C, WIDTH>::new(memory);
    let strip = CarrierStrip::<C, WIDTH>::new(carrier);
    for cell in 0..64u8 {
        let at = usize::from(cell);
        let place = Some(Place::Cell(cell));
        if !tape.press(cell) || tape.at(at) != place || strip.at(at) != place {
            return false;
        }
    }
    let full = tape.len() == 64 && tape.free() == 0;
    let (pressed, unused) = tape.finish();
    full && strip.len() == 64
        && strip.at(64) == None
        && alike(pressed, carrier)
        && unused.is_empty()
}
