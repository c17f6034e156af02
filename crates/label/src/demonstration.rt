// What the program does with no arguments: one strip on every embosser, and back.
use crate::failure::Failure;
use crate::tape::{Hexadecimal, row, show};
use carriers::ascii::{Ascii, AsciiStrip};
use carriers::code::CellCode;
use carriers::strip::CarrierStrip;
use carriers::tape::CarrierTape;
use carriers::unicode::Unicode;
use cells::copy::copy_strip;
use cells::display::BrailleDisplay;
use cells::strip::{Embosser, Strip};
use console::show::Notation;
use std::io;
use std::marker::PhantomData;

const LABEL: AsciiStrip<'static> = AsciiStrip {
    bytes: b"BIN #B,B OR #E;B",
    code: PhantomData,
};

pub(crate) fn run(rt: &(impl Print + AllocGlobal)) -> Result<(), Failure> {
    println!(rt; "The label \"bin 2B or 5b\" on a strip of 16 cells:\n")?;
    show(rt, &LABEL)?;
    println!(rt;
        "
Four cells are indicators: # says that digits follow, a comma that a capital does,
and ; that a letter does. Without the ; at place 14 the last word would read 52.
"
    )?;
    on_carrier::<Ascii, 1>(rt, "ASCII carrier over 16 bytes of memory", &mut [0; 16])?;
    on_carrier::<Unicode, 3>(rt, "Unicode carrier over 60 bytes of memory", &mut [0; 60])?;
    let mut display = BrailleDisplay::new();
    press(rt, "Braille display", &mut display)?;
    read_back(rt, &display)
}

fn on_carrier<C: CellCode<WIDTH>, const WIDTH: usize>(
    rt: &(impl Print + AllocGlobal),
    name: &str,
    memory: &mut [u8],
) -> Result<(), Failure> {
    let mut tape = CarrierTape::<C, WIDTH>::new(memory);
    press(rt, name, &mut tape)?;
    let (pressed, _unused) = tape.finish();
    tell_bytes(rt, pressed)?;
    read_back(rt, &CarrierStrip::<C, WIDTH>::new(pressed))
}

fn press<E: Embosser>(rt: &impl Print, name: &str, to: &mut E) -> Result<(), Failure> {
    let free = to.free();
    let cells = copy_strip(&LABEL, to)?;
    let left = to.free();
    Ok(println!(rt; "{name}\n  pressed    {cells} cells where {free} were free; {left} are left")?)
}

fn tell_bytes(rt: &impl Print, bytes: &[u8]) -> io::Result<()> {
    println!(rt; "  its bytes  {}", Hexadecimal(bytes))
}

fn read_back<S: Strip>(rt: &(impl Print + AllocGlobal), strip: &S) -> Result<(), Failure> {
    let text = row(rt.alloc(), strip, 0..strip.len(), Notation::BrailleAscii)?;
    Ok(println!(rt; "  reads back {text}")?)
}
