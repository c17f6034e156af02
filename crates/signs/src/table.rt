// Sign tables: what a table is to everything above.
ghost use Rattle.std.specs.Prelude.{◌≡◌};
ghost use Rattle.std.specs.Option.{option_copied};
ghost use Rattle.signs.specs.Laws.{Lawful};
ghost use Rattle.signs.specs.Tables.{Table, string_of, look_up, or_match, is_whole, is_neither};

// What some cells are to a table.
#[derive(Clone, Copy, PartialEq, Eq, Debug)]
pub enum Match {
    // the string of this code
    Whole(u32),
    // only the beginning of a string
    Beginning,
    Neither,
}

impl Match {
    pub fn is_whole(self) -> bool
        ensures { result ≡ is_whole self }
    {
        matches!(self, Match::Whole(_))
    }

    pub fn is_neither(self) -> bool
        ensures { result ≡ is_neither self }
    {
        matches!(self, Match::Neither)
    }

    // What the cells are to two tables, the one before the other.
    pub fn or(self, other: Match) -> Match
        ensures { result ≡ or_match self other }
    {
        match (self, other) {
            (Match::Neither, found) => found,
            (Match::Beginning, Match::Whole(code)) => Match::Whole(code),
            (found, _) => found,
        }
    }
}

// A sign table means a list of pairs of code and string, and the list obeys the laws.
pub trait SignTable {
    ghost pairs: { Self → Table };

    // The string of a code, if the table lists it.
    fn string_of(&self, code: u32) -> Option<&[u8]>
        ensures { option_copied result ≡ string_of (pairs self.now) code };

    // What some cells are: one to three may be a string or begin one, and no others are or do.
    fn look_up(&self, cells: &[u8]) -> Match
        ensures { result ≡ look_up (pairs self.now) cells.now };

    ghost lawful: { (t : Self) → Lawful (pairs t) };
}
