// What a code names.
ghost use Rattle.std.specs.Prelude.{◌≡◌};
ghost use Rattle.signs.specs.Signs.{kind, fixed_cell, fixed_kind};

use cells::ascii;

// A letter by its number from 0, by which its cell is found, and a digit by the number of the letter that has its cell.
#[derive(Clone, Copy, PartialEq, Eq, Debug)]
pub enum Kind {
    Blank,
    Capital(u8),
    Small(u8),
    Digit(u8),
    Comma,
    Period,
    // no fixed sign: a sign table may list it
    Other,
}

impl From<u32> for Kind {
    ghost from_gives = { λ code result. result ≡ kind code };

    #[tactic(auto, using(std::proofs::lemmas::Bool::Decides::nat_tests), unfolding(crate::specs::Signs::kind))]
    fn from(code: u32) -> Self {
        match u8::try_from(code) {
            Ok(b' ') => Kind::Blank,
            Ok(b',') => Kind::Comma,
            Ok(b'.') => Kind::Period,
            Ok(b'0') => Kind::Digit(9),
            Ok(digit @ b'1'..=b'9') => Kind::Digit(digit - b'1'),
            Ok(letter @ b'A'..=b'Z') => Kind::Capital(letter - b'A'),
            Ok(letter @ b'a'..=b'z') => Kind::Small(letter - b'a'),
            _ => Kind::Other,
        }
    }
}

impl Kind {
    pub fn is_fixed(self) -> bool
        ensures { result ≡ fixed_kind self }
    {
        !matches!(self, Kind::Other)
    }

    // The cell of a fixed sign.
    #[tactic(auto, unfolding(cells::specs::Cells::characters))]
    pub fn cell(self) -> Option<u8>
        ensures { result ≡ fixed_cell self }
    {
        match self {
            Kind::Blank => Some(0),
            Kind::Capital(n) | Kind::Small(n) | Kind::Digit(n) => letter_cell(n),
            Kind::Comma => Some(2),
            Kind::Period => Some(50),
            Kind::Other => None,
        }
    }
}

// The cell of the n-th letter, which has the letter itself for its character.
fn letter_cell(n: u8) -> Option<u8>
    ensures { result ≡ fixed_cell (Kind.Small n) }
{
    if n < 26 {
        ascii::cell_of(b'A' + n)
    } else {
        None
    }
}
