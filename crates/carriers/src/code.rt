// Codes of cells in bytes, of one width for all cells.
ghost use Rattle.std.specs.Prelude.{◌≡◌, ℕ, List, Option, Some, None, if◌then◌else◌};
ghost use Rattle.std.specs.Option.{option_map};
ghost use Rattle.cells.specs.Cells.{is_cell};
ghost use Rattle.cells.specs.declared.strip.Place.{Place};
ghost use Rattle.cells.specs.declared.strip.Place.TheVariants.{Cell};
ghost use Rattle.carriers.specs.Codes.{CodeLaws};

use cells::strip::Place;

// A code says which places the bytes of a carrier mean, and which bytes a cell has. The number of bytes a cell is a
// parameter, since the bytes of a cell are an array of that length.
pub trait CellCode<const WIDTH: usize> {
    ghost places: { List ℕ → List Place };

    // the first place, and the bytes behind it
    ghost first: { List ℕ → Option (Place × List ℕ) };

    ghost bytes: { Place → List ℕ };

    // The first place of a carrier, and the rest of the carrier behind it.
    fn take_place(carrier: &[u8]) -> Option<(Place, &[u8])>
        ensures { option_map (λ g. (g.0, g.1.now)) result ≡ first carrier.now };

    // The bytes of a cell; none for a number above 63.
    fn bytes_of(cell: u8) -> Option<[u8; WIDTH]>
        ensures { result ≡ (if is_cell cell then Some (bytes (Cell cell)) else None) };

    ghost laws: { CodeLaws WIDTH places first bytes };
}
