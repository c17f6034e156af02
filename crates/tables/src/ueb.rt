// The UEB table of print signs.
ghost use Rattle.std.specs.Prelude.{◌≡◌, map};
ghost use Rattle.std.proofs.Math.Path.{refl};
ghost use Rattle.cells.specs.Cells.{characters};
ghost use Rattle.cells.specs.Lists.{index_of};
ghost use Rattle.signs.specs.Listings.{entry_of};
ghost use Rattle.signs.specs.Signs.{kind};
ghost use Rattle.signs.proofs.Laws.{lawful_true};
ghost use Rattle.tables.specs.Ueb.{ueb, ueb_codes, UebNumbers};

use signs::listing;
use signs::listing::{Listed, Listing, Written};
use signs::table::{Match, SignTable};

// The number of a print sign's string, by its character alone, so that it is found with no search.
pub fn string_number(sign: char) -> Option<usize>
    ensures { result ≡ index_of sign 0 ueb_codes }
{
    match sign {
        ';' => Some(0),
        ':' => Some(1),
        '!' => Some(2),
        '?' => Some(3),
        '\'' => Some(4),
        '-' => Some(5),
        '(' => Some(6),
        ')' => Some(7),
        '[' => Some(8),
        ']' => Some(9),
        '{' => Some(10),
        '}' => Some(11),
        '<' => Some(12),
        '>' => Some(13),
        '/' => Some(14),
        '\\' => Some(15),
        '|' => Some(16),
        '_' => Some(17),
        '\u{2014}' => Some(18),
        '"' => Some(19),
        '“' => Some(20),
        '”' => Some(21),
        '‘' => Some(22),
        '’' => Some(23),
        '«' => Some(24),
        '»' => Some(25),
        '@' => Some(26),
        '&' => Some(27),
        '#' => Some(28),
        '%' => Some(29),
        '*' => Some(30),
        '•' => Some(31),
        '~' => Some(32),
        '^' => Some(33),
        '+' => Some(34),
        '\u{2212}' => Some(35),
        '×' => Some(36),
        '÷' => Some(37),
        '=' => Some(38),
        '°' => Some(39),
        '$' => Some(40),
        '£' => Some(41),
        '€' => Some(42),
        '¥' => Some(43),
        '¢' => Some(44),
        '§' => Some(45),
        '¶' => Some(46),
        '©' => Some(47),
        '®' => Some(48),
        '™' => Some(49),
        _ => None,
    }
}

// The print signs with their strings, in the order of the strings' numbers. (A static cannot call `u32::from`.)
static SIGNS: [Listed<'static>; 50] = [
    Listed {
        code: ';' as u32,
        string: &[6],
    },
    Listed {
        code: ':' as u32,
        string: &[18],
    },
    Listed {
        code: '!' as u32,
        string: &[22],
    },
    Listed {
        code: '?' as u32,
        string: &[38],
    },
    Listed {
        code: '\'' as u32,
        string: &[4],
    },
    Listed {
        code: '-' as u32,
        string: &[36],
    },
    Listed {
        code: '(' as u32,
        string: &[16, 35],
    },
    Listed {
        code: ')' as u32,
        string: &[16, 28],
    },
    Listed {
        code: '[' as u32,
        string: &[40, 35],
    },
    Listed {
        code: ']' as u32,
        string: &[40, 28],
    },
    Listed {
        code: '{' as u32,
        string: &[56, 35],
    },
    Listed {
        code: '}' as u32,
        string: &[56, 28],
    },
    Listed {
        code: '<' as u32,
        string: &[8, 35],
    },
    Listed {
        code: '>' as u32,
        string: &[8, 28],
    },
    Listed {
        code: '/' as u32,
        string: &[56, 12],
    },
    Listed {
        code: '\\' as u32,
        string: &[56, 33],
    },
    Listed {
        code: '|' as u32,
        string: &[56, 51],
    },
    Listed {
        code: '_' as u32,
        string: &[40, 36],
    },
    Listed {
        code: '\u{2014}' as u32,
        string: &[32, 36],
    },
    Listed {
        code: '"' as u32,
        string: &[32, 54],
    },
    Listed {
        code: '“' as u32,
        string: &[24, 38],
    },
    Listed {
        code: '”' as u32,
        string: &[24, 52],
    },
    Listed {
        code: '‘' as u32,
        string: &[32, 38],
    },
    Listed {
        code: '’' as u32,
        string: &[32, 52],
    },
    Listed {
        code: '«' as u32,
        string: &[56, 38],
    },
    Listed {
        code: '»' as u32,
        string: &[56, 52],
    },
    Listed {
        code: '@' as u32,
        string: &[8, 1],
    },
    Listed {
        code: '&' as u32,
        string: &[8, 47],
    },
    Listed {
        code: '#' as u32,
        string: &[56, 57],
    },
    Listed {
        code: '%' as u32,
        string: &[40, 52],
    },
    Listed {
        code: '*' as u32,
        string: &[16, 20],
    },
    Listed {
        code: '•' as u32,
        string: &[56, 50],
    },
    Listed {
        code: '~' as u32,
        string: &[8, 20],
    },
    Listed {
        code: '^' as u32,
        string: &[8, 34],
    },
    Listed {
        code: '+' as u32,
        string: &[16, 22],
    },
    Listed {
        code: '\u{2212}' as u32,
        string: &[16, 36],
    },
    Listed {
        code: '×' as u32,
        string: &[16, 38],
    },
    Listed {
        code: '÷' as u32,
        string: &[16, 12],
    },
    Listed {
        code: '=' as u32,
        string: &[16, 54],
    },
    Listed {
        code: '°' as u32,
        string: &[24, 26],
    },
    Listed {
        code: '$' as u32,
        string: &[8, 14],
    },
    Listed {
        code: '£' as u32,
        string: &[8, 7],
    },
    Listed {
        code: '€' as u32,
        string: &[8, 17],
    },
    Listed {
        code: '¥' as u32,
        string: &[8, 61],
    },
    Listed {
        code: '¢' as u32,
        string: &[8, 9],
    },
    Listed {
        code: '§' as u32,
        string: &[24, 14],
    },
    Listed {
        code: '¶' as u32,
        string: &[24, 15],
    },
    Listed {
        code: '©' as u32,
        string: &[24, 9],
    },
    Listed {
        code: '®' as u32,
        string: &[24, 23],
    },
    Listed {
        code: '™' as u32,
        string: &[24, 30],
    },
];

#[derive(Clone, Copy)]
pub struct Ueb;

impl Listing for Ueb {
    ghost entries = { λ _. ueb };

    #[tactic(auto, unfolding(crate::specs::Ueb::ueb))]
    fn count(&self) -> usize {
        SIGNS.len()
    }

    fn listed(&self, number: usize) -> Option<Listed<'_>> {
        self.signs().get(number).copied()
    }
}

impl Written for Ueb {
    #[tactic(auto, using(crate::proofs::UebRows::ueb_numbers), unfolding(cells::specs::Cells::characters, crate::specs::Ueb::ueb))]
    fn signs(&self) -> &[Listed<'_>]
        ensures signs { map entry_of result.now ≡ ueb }
        ensures numbers { UebNumbers }
    {
        &SIGNS
    }
}

impl SignTable for Ueb {
    ghost pairs = { λ _. ueb };

    ghost lawful = { unfold characters kind ueb in λ t. lawful_true ueb refl };

    fn string_of(&self, code: u32) -> Option<&[u8]> {
        // A sign is found by its character alone, with no look at the list.
        let sign = char::from_u32(code)?;
        let number = string_number(sign)?;
        Some(self.listed(number)?.string)
    }

    fn look_up(&self, cells: &[u8]) -> Match {
        listing::look_up(self, cells)
    }
}
