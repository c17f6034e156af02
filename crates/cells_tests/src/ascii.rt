// Braille ASCII and the ASCII carrier.
use crate::alike::alike;
use crate::carrier::has_every_cell;
use carriers::ascii::{Ascii, AsciiStrip, AsciiTape};
use cells::ascii;
use cells::strip::{Embosser, Place, Strip};

// The characters of cells 0 to 63, in cell order.
const TABLE: [u8; 64] = *b" A1B'K2L@CIF/MSP\"E3H9O6R^DJG>NTQ,*5<-U8V.%[$+X!&;:4\\0Z7(_?W]#Y)=";

#[test]
fn all_cells_there_and_back(rt: HostRuntime) {
    assert!(rt; has_every_cell::<Ascii, 1>(&TABLE, &mut [b'~'; 64]));
}

// The place that a byte should be, by where it stands in the table.
fn expected(byte: u8) -> Place {
    (0u8..)
        .zip(TABLE)
        .find(|(_, character)| *character == byte)
        .map_or(Place::Spoilt, |(cell, _)| Place::Cell(cell))
}

#[test]
fn all_bytes_as_places(rt: HostRuntime) {
    for byte in 0..=255u8 {
        assert!(rt; AsciiStrip::new(&[byte]).at(0) == Some(expected(byte)));
    }
    let spoilt = (0..=255u8)
        .filter(|byte| expected(*byte) == Place::Spoilt)
        .count();
    assert!(rt; spoilt == 192 && expected(b'a') == Place::Spoilt);
}

#[test]
fn cells_and_bytes(rt: HostRuntime) {
    assert!(rt;
        ascii::byte_of(0) == Some(b' ')
            && ascii::byte_of(63) == Some(b'=')
            && ascii::byte_of(64) == None
    );
    assert!(rt;
        ascii::cell_of(b'A') == Some(1)
            && ascii::cell_of(b'a') == None
            && ascii::cell_of(0x1F) == None
    );
}

// Of every tape it is known that this sum can't be too large.
fn total(tape: &AsciiTape<'_>) -> usize {
    tape.len() + tape.free()
}

#[test]
fn no_room_and_no_cell(rt: HostRuntime) {
    let mut memory = [b'~'; 3];
    let mut tape = AsciiTape::new(&mut memory);
    assert!(rt; tape.free() == 3 && !tape.press(64) && !tape.press(255) && tape.len() == 0);
    assert!(rt; tape.press(63) && tape.press(0) && tape.free() == 1 && tape.at(2) == None);
    assert!(rt; total(&tape) == 3);
    let (pressed, unused) = tape.finish();
    assert!(rt; alike(pressed, b"= ") && alike(unused, b"~"));
    let mut nothing = [0; 0];
    let mut full = AsciiTape::new(&mut nothing);
    assert!(rt; full.free() == 0 && !full.press(0));
}

// The first tape ends, and the second may begin on the same memory; what memory held is no place.
#[test]
fn one_tape_after_the_other(rt: HostRuntime) {
    let mut memory = [b'~'; 2];
    let mut first = AsciiTape::new(&mut memory);
    assert!(rt; first.press(1) && first.len() == 1);
    let mut second = AsciiTape::new(&mut memory);
    assert!(rt; second.len() == 0 && second.press(3) && second.press(5));
    assert!(rt; alike(&memory, b"BK"));
}

// The strip ends, and its bytes may be written.
#[test]
fn bytes_written_after_the_strip(rt: HostRuntime) {
    let mut bytes = *b"AB";
    let strip = AsciiStrip::new(&bytes);
    assert!(rt; strip.at(0) == Some(Place::Cell(1)));
    bytes[0] = b'B';
    assert!(rt; AsciiStrip::new(&bytes).at(0) == Some(Place::Cell(3)));
}
