// How a place of a strip is shown to a person.
ghost use Rattle.std.specs.Prelude.{◌≡◌};
ghost use Rattle.console.specs.Showing.{braille_shown, character_shown, shown};

use cells::ascii;
use cells::strip::Place;

// What a strip is shown in.
#[derive(Clone, Copy)]
pub enum Notation {
    // Unicode's braille patterns
    Dots,
    // Braille ASCII, letters in lower case
    BrailleAscii,
}

// The mark of a place with no cell; no cell is shown so.
const SPOILT: char = '~';

impl Notation {
    pub fn show(self, place: Place) -> char
        ensures { result ≡ shown self place }
    {
        match self {
            Notation::Dots => braille(place),
            Notation::BrailleAscii => character(place),
        }
    }
}

fn braille(place: Place) -> char
    ensures { result ≡ braille_shown place }
{
    place
        .cell()
        .and_then(|cell| char::from_u32(0x2800 + u32::from(cell)))
        .unwrap_or(SPOILT)
}

fn character(place: Place) -> char
    ensures { result ≡ character_shown place }
{
    match place {
        Place::Cell(cell) => ascii::byte_of(cell).map_or(
            SPOILT,
            |byte| char::from(byte.to_ascii_lowercase()),
        ),
        Place::Spoilt => SPOILT,
    }
}
