// Tables whose signs can be gone through by number.
ghost use Rattle.std.specs.Prelude.{◌≡◌, [], ◌∷◌, length, map};
ghost use Rattle.std.specs.List.{slice_get};
ghost use Rattle.std.specs.Option.{option_copied, option_map, option_to_list};
ghost use Rattle.signs.specs.Listings.{entry_of, has_code};
ghost use Rattle.signs.specs.Tables.{Table, string_of, look_up};

use crate::table::Match;
use arrayvec::ArrayVec;

// A sign that a table lists. The default is what an unused place of an `ArrayVec` holds.
#[derive(Clone, Copy, Default)]
pub struct Listed<'a> {
    pub code: u32,
    pub string: &'a [u8],
}

impl Listed<'_> {
    // What some cells are to this sign's string.
    #[tactic(auto, using(crate::proofs::Tables::look_up_begun))]
    pub fn look_up(self, cells: &[u8]) -> Match
        ensures { result ≡ look_up (entry_of self.entry ∷ []) cells.now }
    {
        // The string is gone through once: where the cells begin it, their number tells the rest.
        if cells.is_empty() || !self.string.starts_with(cells) {
            Match::Neither
        } else if cells.len() == self.string.len() {
            Match::Whole(self.code)
        } else {
            Match::Beginning
        }
    }
}

// A list of signs means the entries of a table, or of a part of one; it owes no laws. It answers by number, so it may
// compute its signs or own their strings.
pub trait Listing {
    ghost entries: { Self → Table };

    // The number of entries.
    fn count(&self) -> usize
        ensures { result ≡ length (entries self.now) };

    fn listed(&self, number: usize) -> Option<Listed<'_>>
        ensures { option_map entry_of result ≡ slice_get (entries self.now) number };
}

// A listing that is written out lends its signs, in order.
pub trait Written: Listing {
    fn signs(&self) -> &[Listed<'_>]
        ensures { map entry_of result.now ≡ Self.Listing.entries self.now };
}

impl<const CAP: usize> Listing for ArrayVec<Listed<'static>, CAP> {
    ghost entries = { λ signs. map entry_of signs.items };

    fn count(&self) -> usize {
        self.signs().len()
    }

    fn listed(&self, number: usize) -> Option<Listed<'_>> {
        self.signs().get(number).copied()
    }
}

impl<const CAP: usize> Written for ArrayVec<Listed<'static>, CAP> {
    fn signs(&self) -> &[Listed<'_>] {
        self.as_slice()
    }
}

// What some cells are to the string of a number, and nothing past the end.
fn look_up_at<L: Listing>(listing: &L, number: usize, cells: &[u8]) -> Match
    ensures { result ≡ look_up (option_to_list (slice_get (L.Listing.entries listing.now) number)) cells.now }
{
    match listing.listed(number) {
        Some(sign) => sign.look_up(cells),
        None => Match::Neither,
    }
}

// What some cells are to the strings of a listing.
pub fn look_up<L: Listing>(listing: &L, cells: &[u8]) -> Match
    ensures { result ≡ look_up (L.Listing.entries listing.now) cells.now }
{
    (0..listing.count()).fold(
        Match::Neither,
        |found, number| found.or(look_up_at(listing, number, cells)),
    )
}

// Whether the sign of a number has the code.
fn has_code<L: Listing>(listing: &L, number: usize, code: u32) -> bool
    ensures { result ≡ has_code code (slice_get (L.Listing.entries listing.now) number) }
{
    listing.listed(number).is_some_and(|sign| sign.code == code)
}

// The string of a code, if the listing has it.
pub fn string_of<L: Listing>(listing: &L, code: u32) -> Option<&[u8]>
    ensures { option_copied result ≡ string_of (L.Listing.entries listing.now) code }
{
    match (0..listing.count()).find(|number| has_code(listing, *number, code)) {
        Some(number) => Some(listing.listed(number)?.string),
        None => None,
    }
}
