// Accents on letters.
ghost use Rattle.std.specs.Prelude.{◌≡◌, ◌-◌, if◌then◌else◌, None, nat_eq};
ghost use Rattle.std.specs.List.{slice_get};
ghost use Rattle.std.specs.Option.{ok_or};
ghost use Rattle.signs.specs.Signs.{accents, accent_string};

use thiserror::Error;

#[derive(Clone, Copy, PartialEq, Eq, Debug)]
pub enum Accent {
    Grave,
    Acute,
    Circumflex,
    Tilde,
    Macron,
    Breve,
    Diaeresis,
    Ring,
    Caron,
    Cedilla,
}

#[derive(Clone, Copy, PartialEq, Eq, Debug, Error)]
#[error("no accent has the number {0}")]
pub struct UnknownAccent(pub u8);

// The accent of a number of 1 to 10. (Each enum that a number names has a table of its own: one function for all would want
// a list of each, and a law that the list is whole.)
impl TryFrom<u8> for Accent {
    type Error = UnknownAccent;

    ghost try_from_gives = { λ number result. result ≡ ok_or (if nat_eq number 0 then None else slice_get accents (number - 1)) (record { 0 = number }) };

    fn try_from(number: u8) -> Result<Self, UnknownAccent> {
        match number {
            1 => Ok(Accent::Grave),
            2 => Ok(Accent::Acute),
            3 => Ok(Accent::Circumflex),
            4 => Ok(Accent::Tilde),
            5 => Ok(Accent::Macron),
            6 => Ok(Accent::Breve),
            7 => Ok(Accent::Diaeresis),
            8 => Ok(Accent::Ring),
            9 => Ok(Accent::Caron),
            10 => Ok(Accent::Cedilla),
            _ => Err(UnknownAccent(number)),
        }
    }
}

impl Accent {
    // The two cells that stand before the letter.
    #[tactic(auto, unfolding(cells::specs::Cells::characters))]
    pub fn cells(self) -> [u8; 2]
        ensures { result ≡ accent_string self }
    {
        match self {
            Accent::Grave => [24, 33],
            Accent::Acute => [24, 12],
            Accent::Circumflex => [24, 41],
            Accent::Tilde => [24, 59],
            Accent::Macron => [8, 36],
            Accent::Breve => [8, 44],
            Accent::Diaeresis => [24, 18],
            Accent::Ring => [24, 43],
            Accent::Caron => [24, 44],
            Accent::Cedilla => [24, 47],
        }
    }
}
