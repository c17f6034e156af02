// A tape in the one carrier, pressed again in the other.
ghost use Rattle.std.specs.Prelude.{◌≡◌, ◌/◌, length};
ghost use Rattle.std.specs.List.{flat_map};
ghost use Rattle.cells.specs.Pressing.{copied};
ghost use Rattle.console.specs.Converting.{bytes_told, carrier_places, embossed, when_granted};

use crate::carrier::Carrier;
use carriers::ascii::{Ascii, AsciiStrip};
use carriers::code::CellCode;
use carriers::tape::CarrierTape;
use carriers::unicode::{Unicode, UnicodeStrip};
use cells::copy::copy_strip;
use cells::refusal::CopyRefusal;
use cells::strip::Strip;

// Presses all that stands on a strip on a bare tape over this memory, and answers the bytes pressed.
pub fn emboss<'a, S: Strip>(
    strip: &S,
    to: Carrier,
    memory: &'a mut [u8],
) -> Result<&'a [u8], CopyRefusal>
    ensures { bytes_told result ≡ embossed to (length memory.old) (S.Strip.places strip.now) }
{
    // The carrier is known when the program runs and its code is a type, so each has a line of its own.
    match to {
        Carrier::Ascii => emboss_in::<Ascii, 1, S>(strip, memory),
        Carrier::Unicode => emboss_in::<Unicode, 3, S>(strip, memory),
    }
}

fn emboss_in<'a, C: CellCode<WIDTH>, const WIDTH: usize, S: Strip>(
    strip: &S,
    memory: &'a mut [u8],
) -> Result<&'a [u8], CopyRefusal>
    ensures { bytes_told result ≡ when_granted (flat_map C.bytes (S.Strip.places strip.now)) (copied (length memory.old / WIDTH) (S.Strip.places strip.now)) }
{
    let mut tape = CarrierTape::<C, WIDTH>::new(memory);
    copy_strip(strip, &mut tape)?;
    let (pressed, _unused) = tape.finish();
    Ok(pressed)
}

// Presses the tape that one carrier's bytes are on a bare tape of the other.
pub fn convert<'a>(
    from: Carrier,
    bytes: &[u8],
    to: Carrier,
    memory: &'a mut [u8],
) -> Result<&'a [u8], CopyRefusal>
    ensures { bytes_told result ≡ embossed to (length memory.old) (carrier_places from bytes.now) }
{
    // A line for each carrier, since its code is a type.
    match from {
        Carrier::Ascii => emboss(&AsciiStrip::new(bytes), to, memory),
        Carrier::Unicode => emboss(&UnicodeStrip::new(bytes), to, memory),
    }
}
