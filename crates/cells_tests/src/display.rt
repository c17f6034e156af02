// The braille display.
use cells::display::BrailleDisplay;
use cells::strip::{Embosser, Place, Strip};

#[test]
fn forty_cells_and_no_more(rt: HostRuntime) {
    let mut display = BrailleDisplay::new();
    assert!(rt;
        display.len() == 0 && display.free() == 40 && !display.press(64) && !display.press(255)
    );
    for cell in 24..64u8 {
        assert!(rt; display.press(cell));
    }
    assert!(rt; display.len() == 40 && display.free() == 0 && !display.press(1));
    assert!(rt;
        display.at(0) == Some(Place::Cell(24))
            && display.at(39) == Some(Place::Cell(63))
            && display.at(40) == None
    );
}
