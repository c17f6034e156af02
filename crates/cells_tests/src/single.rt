// An embosser of somebody else's, proved by the meaning of the traits alone.
ghost use Rattle.cells_tests.specs.Single.{places_of, room_of};

use cells::cell_strip::CellStrip;
use cells::copy::{copy_strip, press_all};
use cells::refusal::CopyRefusal;
use cells::strip::{Embosser, Place, Strip};

// A tape of one cell.
#[derive(Drop)]
struct Single {
    cell: Option<u8>,
}

impl Strip for Single {
    ghost places = { λ s. places_of s.cell };

    fn len(&self) -> usize {
        usize::from(self.cell.is_some())
    }

    fn at(&self, place: usize) -> Option<Place> {
        match self.cell {
            Some(cell) if place == 0 => Some(Place::Cell(cell)),
            _ => None,
        }
    }
}

impl Embosser for Single {
    ghost room = { λ s. room_of s.cell };

    fn free(&self) -> usize {
        usize::from(self.cell.is_none())
    }

    fn press(&mut self, cell: u8) -> bool {
        if cell > 63 || self.cell.is_some() {
            return false;
        }
        self.cell = Some(cell);
        true
    }
}

#[test]
fn any_embosser_will_do(rt: HostRuntime) {
    let mut single = Single { cell: None };
    assert!(rt;
        !press_all(&[64], &mut single) && press_all(&[63], &mut single) && single.free() == 0
    );
    assert_eq!(rt;
        copy_strip(&CellStrip(&[1]), &mut single),
        Err(CopyRefusal::NoRoomFor(1))
    );
    assert!(rt; single.len() == 1 && !single.press(0));
}
