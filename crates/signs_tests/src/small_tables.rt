// Sign tables of somebody else's, proved by the meaning of the trait alone.
ghost use Rattle.signs_tests.specs.Small.{no_signs, one_sign};
ghost use Rattle.std.proofs.Common.{rules};
ghost use Rattle.std.proofs.Math.Path.{refl};
ghost use Rattle.cells.specs.Cells.{characters};
ghost use Rattle.signs.specs.Signs.{kind};
ghost use Rattle.signs.proofs.Laws.{lawful_true};

use signs::listing;
use signs::listing::{Listed, Listing};
use signs::table::{Match, SignTable};

// A table that lists nothing.
#[derive(Clone, Copy)]
pub(crate) struct NoSigns;

impl SignTable for NoSigns {
    ghost pairs = { λ _. no_signs };

    ghost lawful = { Prim.search rules };

    fn string_of(&self, _code: u32) -> Option<&[u8]> {
        None
    }

    fn look_up(&self, _cells: &[u8]) -> Match {
        Match::Neither
    }
}

// A table of one sign, whose string begins the third house string.
#[derive(Clone, Copy)]
pub(crate) struct OneSign;

const COMET: Listed<'static> = Listed {
    code: 0x2604,
    string: &[56, 60],
};

impl Listing for OneSign {
    ghost entries = { λ _. one_sign };

    fn count(&self) -> usize {
        1
    }

    #[tactic(auto, unfolding(cells::specs::Cells::characters))]
    fn listed(&self, number: usize) -> Option<Listed<'_>> {
        match number {
            0 => Some(COMET),
            _ => None,
        }
    }
}

impl SignTable for OneSign {
    ghost pairs = { λ _. one_sign };

    ghost lawful = { unfold characters kind in λ t. lawful_true one_sign refl };

    fn string_of(&self, code: u32) -> Option<&[u8]> {
        listing::string_of(self, code)
    }

    fn look_up(&self, cells: &[u8]) -> Match {
        listing::look_up(self, cells)
    }
}
