// Strips and lists of cells, pressed whole or not at all.
ghost use Rattle.std.specs.Prelude.{◌≡◌, ◌≤◌, true, length};
ghost use Rattle.cells.specs.Places.{all_cells};
ghost use Rattle.carriers.specs.Carriers.{ascii_places};

use crate::alike::alike;
use carriers::ascii::{AsciiStrip, AsciiTape};
use carriers::unicode::UnicodeTape;
use cells::copy::{copy_strip, press_all};
use cells::display::BrailleDisplay;
use cells::refusal::CopyRefusal;
use cells::strip::{Embosser, Strip};
use std::test::Fail;

#[test]
fn all_or_nothing(rt: HostRuntime) {
    let mut display = BrailleDisplay::new();
    assert!(rt; press_all(&[60, 17, 48, 3, 0, 0], &mut display) && press_all(&[], &mut display));
    assert!(rt; !press_all(&[1, 2, 64, 3], &mut display) && !press_all(&[1; 35], &mut display));
    assert!(rt; display.len() == 6 && press_all(&[1; 34], &mut display) && display.free() == 0);
}

// The first place with no cell is told before the want of room.
#[test]
fn refusals_of_a_copy(rt: HostRuntime) {
    let mut memory = [b'~'; 4];
    let mut tape = AsciiTape::new(&mut memory);
    assert_eq!(rt;
        copy_strip(&AsciiStrip::new(b"ABaCb"), &mut tape),
        Err(CopyRefusal::SpoiltAt(2))
    );
    assert_eq!(rt;
        copy_strip(&AsciiStrip::new(b"ABCDE"), &mut tape),
        Err(CopyRefusal::NoRoomFor(5))
    );
    assert!(rt; tape.len() == 0);
    assert_eq!(rt; copy_strip(&AsciiStrip::new(b"ABC"), &mut tape), Ok(3));
    assert_eq!(rt;
        copy_strip(&AsciiStrip::new(b"ABC"), &mut tape),
        Err(CopyRefusal::NoRoomFor(3))
    );
    let (pressed, unused) = tape.finish();
    assert!(rt; alike(pressed, b"ABC") && alike(unused, b"~"));
}

// What is so of every display and tape is known of one that only generic code has had.
fn shown_on(display: &mut BrailleDisplay) -> bool
    ensures { length display.new.cells.items ≤ 40 }
{
    press_all(&[1, 2], display)
}

fn copied_on(tape: &mut AsciiTape<'_>) -> bool
    ensures { all_cells (ascii_places tape.new.tape.memory.pressed) ≡ true }
{
    copy_strip(&AsciiStrip::new(b"AB"), tape).is_ok()
}

#[test]
fn known_with_no_call(rt: HostRuntime) {
    let mut display = BrailleDisplay::new();
    assert!(rt; shown_on(&mut display) && display.len() == 2);
    let mut memory = [b'~'; 3];
    let mut tape = AsciiTape::new(&mut memory);
    assert!(rt; copied_on(&mut tape) && !copied_on(&mut tape) && tape.len() == 2);
}

fn how_long(strip: &dyn Strip) -> usize {
    strip.len()
}

fn pressed_on(to: &mut dyn Embosser) -> bool {
    to.press(3)
}

#[test]
fn embossers_behind_dyn(rt: HostRuntime) {
    let mut display = BrailleDisplay::new();
    assert!(rt; pressed_on(&mut display) && how_long(&display) == 1);
    let mut memory = [b'~'; 3];
    let mut tape = AsciiTape::new(&mut memory);
    assert!(rt; pressed_on(&mut tape) && how_long(&tape) == 1);
    let mut memory = [b'~'; 3];
    let mut tape = UnicodeTape::new(&mut memory);
    assert!(rt; pressed_on(&mut tape) && !pressed_on(&mut tape) && how_long(&tape) == 1);
    assert!(rt; how_long(&AsciiStrip::new(b"AB")) == 2);
}

#[test]
fn refusals_as_they_are_told(rt: HostRuntime) -> Result<(), Fail> {
    let told = [
        (
            CopyRefusal::NoRoomFor(7),
            "refusal 9: 7 cells are needed, and fewer are free",
        ),
        (
            CopyRefusal::SpoiltAt(3),
            "refusal 10 at place 3: no cell stands there",
        ),
    ];
    for (refusal, text) in told {
        let shown = refusal.to_string(rt.alloc())?;
        assert!(rt; shown.as_str() == text);
    }
    Ok(())
}
