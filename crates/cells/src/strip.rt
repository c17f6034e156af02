// Strips and embossers: what a tape is to everything above.
ghost use Rattle.std.specs.Prelude.{◌≡◌, ℕ, ◌-◌, List, Some, [], ◌∷◌, ◌++◌, length, drop, if◌then◌else◌};
ghost use Rattle.std.specs.List.{slice_get};
ghost use Rattle.cells.specs.Places.{cell_in, cell_place};
ghost use Rattle.cells.specs.Pressing.{takes};
ghost use Rattle.cells.specs.declared.strip.Place.{Place};
ghost use Rattle.cells.specs.declared.strip.Place.TheVariants.{Cell};

// What stands at one place of a strip. It is no Option, since `at` answers an Option of it: past the end there is not
// even a spoilt place.
#[derive(Clone, Copy, PartialEq, Eq, Debug)]
pub enum Place {
    Cell(u8),
    Spoilt,
}

impl Place {
    // The cell that stands here; none where the place is spoilt.
    pub fn cell(self) -> Option<u8>
        ensures { result ≡ cell_in (Some self) }
    {
        match self {
            Place::Cell(cell @ 0..=63) => Some(cell),
            _ => None,
        }
    }
}

// A number above 63 is spoilt.
impl From<u8> for Place {
    ghost from_gives = { λ number place. place ≡ cell_place number };

    fn from(number: u8) -> Place {
        match number {
            0..=63 => Place::Cell(number),
            _ => Place::Spoilt,
        }
    }
}

// A strip means a list of places.
pub trait Strip {
    ghost places: { Self → List Place };

    fn len(&self) -> usize
        ensures { result ≡ length (places self.now) };

    // What stands at a place; past the end there is nothing.
    fn at(&self, place: usize) -> Option<Place>
        ensures { result ≡ slice_get (places self.now) place };
}

// An embosser is a strip that can also be pressed. Its places are the cells pressed so far.
pub trait Embosser: Strip {
    // the number of cells free
    ghost room: { Self → ℕ };

    // The bytes of lent memory behind the last pressed cell, and how many of them a cell takes: by these a caller
    // knows that the rest of its memory stays. An embosser with no such memory leaves both out, and they ask nothing.
    ghost unused: { Self → List ℕ } = { λ _. [] };

    ghost width: { ℕ } = { 0 };

    fn free(&self) -> usize
        ensures { result ≡ room self.now };

    // Presses one cell, or says no and moves nothing. A bool says all: a number that is no cell and a full embosser are
    // refused alike. (The last three facts stand at every call that presses. One definition of them would take six
    // arguments: they speak of three members of two traits, before and after.)
    fn press(&mut self, cell: u8) -> bool
        ensures answer { result ≡ takes (room self.old) cell }
        ensures places { Self.Strip.places self.new ≡ (if result then Self.Strip.places self.old ++ Cell cell ∷ [] else Self.Strip.places self.old) }
        ensures room { room self.new ≡ (if result then room self.old - 1 else room self.old) }
        ensures unused { unused self.new ≡ (if result then drop width (unused self.old) else unused self.old) };
}
