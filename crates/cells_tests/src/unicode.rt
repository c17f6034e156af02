// The Unicode carrier.
use crate::alike::alike;
use crate::carrier::has_every_cell;
use carriers::unicode::{Unicode, UnicodeStrip, UnicodeTape};
use cells::strip::{Embosser, Place, Strip};

const ALL: &str = "⠀⠁⠂⠃⠄⠅⠆⠇⠈⠉⠊⠋⠌⠍⠎⠏⠐⠑⠒⠓⠔⠕⠖⠗⠘⠙⠚⠛⠜⠝⠞⠟⠠⠡⠢⠣⠤⠥⠦⠧⠨⠩⠪⠫⠬⠭⠮⠯⠰⠱⠲⠳⠴⠵⠶⠷⠸⠹⠺⠻⠼⠽⠾⠿";

#[test]
fn all_cells_there_and_back(rt: HostRuntime) {
    assert!(rt; has_every_cell::<Unicode, 3>(ALL.as_bytes(), &mut [0; 192]));
}

fn spoilt(group: [u8; 3]) -> bool {
    UnicodeStrip::new(&group).at(0) == Some(Place::Spoilt)
}

#[test]
fn every_wrong_byte_is_spoilt(rt: HostRuntime) {
    for byte in 0..=255u8 {
        assert!(rt; byte == 0xE2 || spoilt([byte, 0xA0, 0x81]));
        assert!(rt; byte == 0xA0 || spoilt([0xE2, byte, 0x81]));
        assert!(rt; spoilt([0xE2, 0xA0, byte]) == (byte < 0x80 || byte > 0xBF));
    }
}

// A group that is cut off is one spoilt place, and the group before it is as it was.
#[test]
fn cut_off_groups_are_spoilt(rt: HostRuntime) {
    let two = UnicodeStrip::new(&[0xE2, 0xA0, 0x81, 0xE2, 0xA0]);
    assert!(rt;
        two.len() == 2
            && two.at(0) == Some(Place::Cell(1))
            && two.at(1) == Some(Place::Spoilt)
            && two.at(2) == None
    );
    let one = UnicodeStrip::new(&[0xE2, 0xA0, 0x81, 0xE2]);
    assert!(rt;
        one.len() == 2
            && one.at(0) == Some(Place::Cell(1))
            && one.at(1) == Some(Place::Spoilt)
            && one.at(2) == None
    );
    let none = UnicodeStrip::new(&[]);
    assert!(rt; none.len() == 0 && none.at(0) == None && none.at(usize::MAX) == None);
}

// Of every tape it is known that this product can't be too large.
fn free_bytes(tape: &UnicodeTape<'_>) -> usize {
    3 * tape.free()
}

// Eleven bytes have three cells free, and the last two are never touched.
#[test]
fn odd_bytes_are_no_place(rt: HostRuntime) {
    let mut memory = [b'~'; 11];
    let mut tape = UnicodeTape::new(&mut memory);
    assert!(rt; tape.free() == 3 && !tape.press(64) && !tape.press(255) && tape.len() == 0);
    assert!(rt; free_bytes(&tape) == 9);
    assert!(rt;
        tape.press(63) && tape.press(0) && tape.press(1) && tape.free() == 0 && !tape.press(1)
    );
    assert!(rt; tape.len() == 3 && tape.at(3) == None);
    let (pressed, unused) = tape.finish();
    assert!(rt; alike(pressed, "⠿⠀⠁".as_bytes()) && alike(unused, b"~~"));
}
