// Typeforms, and sets of them.
ghost use Rattle.std.specs.Prelude.{◌≡◌, ◌^◌, [], ◌∷◌};
ghost use Rattle.std.specs.List.{slice_get};
ghost use Rattle.std.specs.Option.{ok_or};
ghost use Rattle.signs.specs.Signs.{typeforms, typeform_number, has_bit};
ghost use Rattle.signs.specs.Symbols.{mark};

use thiserror::Error;

#[derive(Clone, Copy, PartialEq, Eq, Debug)]
pub enum Typeform {
    Italic,
    Bold,
    Underline,
    Script,
}

#[derive(Clone, Copy, PartialEq, Eq, Debug, Error)]
#[error("no typeform has the number {0}")]
pub struct UnknownTypeform(pub u8);

// The typeform of a number of 0 to 3: a table of its own, as for accents.
impl TryFrom<u8> for Typeform {
    type Error = UnknownTypeform;

    ghost try_from_gives = { λ number result. result ≡ ok_or (slice_get typeforms number) (record { 0 = number }) };

    fn try_from(number: u8) -> Result<Self, UnknownTypeform> {
        match number {
            0 => Ok(Typeform::Italic),
            1 => Ok(Typeform::Bold),
            2 => Ok(Typeform::Underline),
            3 => Ok(Typeform::Script),
            _ => Err(UnknownTypeform(number)),
        }
    }
}

impl Typeform {
    // What it counts in a set.
    pub fn weight(self) -> u8
        ensures { result ≡ 2 ^ typeform_number self }
    {
        match self {
            Typeform::Italic => 1,
            Typeform::Bold => 2,
            Typeform::Underline => 4,
            Typeform::Script => 8,
        }
    }

    // The first cell of its indicators.
    #[tactic(auto, unfolding(cells::specs::Cells::characters))]
    pub fn mark(self) -> u8
        ensures { result ∷ [] ≡ mark (typeform_number self) }
    {
        match self {
            Typeform::Italic => 40,
            Typeform::Bold => 24,
            Typeform::Underline => 56,
            Typeform::Script => 8,
        }
    }
}

// The typeforms of a sign, as a sum of weights. A sum above 15 is no set; the calls that take signs refuse it.
#[derive(Clone, Copy, PartialEq, Eq, Debug)]
pub struct Typeforms {
    pub set: u8,
}

impl Typeforms {
    #[tactic(auto, using(crate::proofs::Sets::bit_test), unfolding(crate::specs::Signs::has_bit))]
    pub fn has(self, form: Typeform) -> bool
        ensures { result ≡ has_bit (typeform_number form) self.set }
    {
        self.set & form.weight() != 0
    }
}
