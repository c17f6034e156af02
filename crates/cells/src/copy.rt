// Pressing a whole strip, or a whole list of cells, or nothing.
ghost use Rattle.std.specs.Prelude.{◌≡◌, ◌-◌, ◌*◌, ◌++◌, map, length, drop, is_ok, if◌then◌else◌};
ghost use Rattle.std.specs.List.{slice_get};
ghost use Rattle.cells.specs.Places.{cell_in, first_gap};
ghost use Rattle.cells.specs.Pressing.{copied, takes_all};
ghost use Rattle.cells.specs.Refusals.{told};
ghost use Rattle.cells.specs.declared.strip.Place.TheVariants.{Cell};

use crate::cell_strip::CellStrip;
use crate::refusal::CopyRefusal;
use crate::strip::{Embosser, Strip};

// Presses all that stands on a strip, and answers the number of cells; or refuses, and presses nothing.
pub fn copy_strip<S: Strip, E: Embosser>(from: &S, to: &mut E) -> Result<usize, CopyRefusal>
    ensures answer { told result ≡ copied (E.Embosser.room to.old) (S.Strip.places from.now) }
    ensures places { E.Strip.places to.new ≡ (if is_ok result then E.Strip.places to.old ++ S.Strip.places from.now else E.Strip.places to.old) }
    ensures room { E.Embosser.room to.new ≡ (if is_ok result then E.Embosser.room to.old - length (S.Strip.places from.now) else E.Embosser.room to.old) }
    ensures unused { E.Embosser.unused to.new ≡ (if is_ok result then drop (length (S.Strip.places from.now) * E.Embosser.width) (E.Embosser.unused to.old) else E.Embosser.unused to.old) }
{
    if let Some(place) = first_gap(from) {
        return Err(CopyRefusal::SpoiltAt(place));
    }
    let cells = from.len();
    if cells > to.free() {
        return Err(CopyRefusal::NoRoomFor(cells));
    }
    // A strip answers by the number of a place alone.
    for place in 0..cells {
        let Some(cell) = cell_at(from, place) else {
            unreachable!()
        };
        let _ = to.press(cell);
    }
    Ok(cells)
}

// The cell that stands at a place; none where it is spoilt, and none past the end.
fn cell_at<S: Strip>(strip: &S, place: usize) -> Option<u8>
    ensures { result ≡ cell_in (slice_get (S.Strip.places strip.now) place) }
{
    strip.at(place)?.cell()
}

// The first place with no cell.
fn first_gap<S: Strip>(strip: &S) -> Option<usize>
    ensures { result ≡ first_gap 0 (S.Strip.places strip.now) }
{
    (0..strip.len()).find(|place| cell_at(strip, *place).is_none())
}

// Presses these cells one after the other; or says no, and presses nothing. Whoever wants to know why asks `copy_strip`.
pub fn press_all<E: Embosser>(cells: &[u8], to: &mut E) -> bool
    ensures answer { result ≡ takes_all (E.Embosser.room to.old) cells.now }
    ensures places { E.Strip.places to.new ≡ (if result then E.Strip.places to.old ++ map Cell cells.now else E.Strip.places to.old) }
    ensures room { E.Embosser.room to.new ≡ (if result then E.Embosser.room to.old - length cells.now else E.Embosser.room to.old) }
    ensures unused { E.Embosser.unused to.new ≡ (if result then drop (length cells.now * E.Embosser.width) (E.Embosser.unused to.old) else E.Embosser.unused to.old) }
{
    copy_strip(&CellStrip(cells), to).is_ok()
}
