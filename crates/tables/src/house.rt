// House signs: up to five codes with strings of their own, laid over any sign table.
ghost use Rattle.std.specs.Prelude.{◌≡◌, is_ok};
ghost use Rattle.signs.specs.Known.{ToldApart};
ghost use Rattle.signs.specs.Lists.{times};
ghost use Rattle.tables.specs.House.{is_clear, clash, house_check, refused, house_refused, laid, LaidAnswers};
ghost use Rattle.tables.specs.Houses.{laid_lawful};

use crate::clash::{Clash, HouseRefusal};
use crate::house_codes::{HouseCodes, STRINGS};
use signs::kind::Kind;
use signs::listing;
use signs::table::{Match, SignTable};

// How often a code stands in a list.
fn times(code: u32, codes: &[u32]) -> usize
    ensures { result ≡ times code codes.now }
{
    codes.iter().filter(|other| **other == code).count()
}

// No string of the table begins this one or is begun by it. By the laws a string has at most three cells, so one that
// begins this one is a front of it.
fn is_clear<T: SignTable>(table: &T, string: &[u8; 3]) -> bool
    ensures { result ≡ is_clear (T.pairs table.now) string.now }
{
    !table.look_up(&string[..1]).is_whole()
        && !table.look_up(&string[..2]).is_whole()
        && table.look_up(string).is_neither()
}

// Why one of the codes clashes with its string.
fn clash_of<T: SignTable>(below: &T, codes: &[u32], code: u32, string: &[u8; 3]) -> Option<Clash>
    ensures { result ≡ clash (T.pairs below.now) codes.now (code, string.now) }
{
    if char::from_u32(code).is_none() {
        Some(Clash::NoScalar)
    } else if Kind::from(code).is_fixed() {
        Some(Clash::Fixed)
    } else if below.string_of(code).is_some() {
        Some(Clash::ListedBelow)
    } else if times(code, codes) > 1 {
        Some(Clash::StandsTwice)
    } else if !is_clear(below, string) {
        Some(Clash::StringTaken)
    } else {
        None
    }
}

// Whether a list of codes may be laid over a table. The codes are gone through with their positions, up to the first that
// clashes: that one is told.
pub fn check_house<T: SignTable>(below: &T, codes: &[u32]) -> Result<(), HouseRefusal>
    ensures answer { result ≡ house_check (T.pairs below.now) codes.now }
    ensures number { refused result ≡ house_refused (T.pairs below.now) codes.now }
{
    if codes.len() > STRINGS.len() {
        return Err(HouseRefusal::TooMany);
    }
    for (position, (code, string)) in codes.iter().zip(&STRINGS).enumerate() {
        if let Some(why) = clash_of(below, codes, *code, string) {
            return Err(HouseRefusal::ClashAt(position, why));
        }
    }
    Ok(())
}

// A table with house signs laid over it. The laws are owed whatever the codes are. An invariant that they passed their check
// would need a bound on the struct, and a generic struct could then hold no house signs over house signs. So the check is
// asked again where a house sign would be answered.
#[derive(Drop)]
pub struct HouseSigns<T> {
    codes: HouseCodes,
    below: T,
}

impl<T: SignTable> HouseSigns<T> {
    // Lays house signs over a table. A list that fails its check lays nothing, and the table answers as before.
    #[tactic(auto, using(signs::proofs::Apart::told_apart, crate::proofs::Laid::laid_answers))]
    pub fn lay(below: T, codes: &[u32]) -> Self
        ensures laid { ⟦<HouseSigns<T> as SignTable>⟧.pairs result ≡ laid (T.pairs below) codes.now }
        ensures answers { LaidAnswers }
        ensures told_apart { ToldApart }
    {
        let codes = match check_house(&below, codes) {
            Ok(()) => HouseCodes::of(codes),
            Err(_) => HouseCodes::of(&[]),
        };
        HouseSigns { codes, below }
    }

    fn is_laid(&self) -> bool
        ensures { result ≡ is_ok (house_check (T.pairs self.now.below) self.now.codes.codes.items) }
    {
        check_house(&self.below, self.codes.as_slice()).is_ok()
    }
}

impl<T: SignTable> SignTable for HouseSigns<T> {
    ghost pairs = { λ h. laid (T.pairs h.below) h.codes.codes.items };

    ghost lawful = { λ t. laid_lawful (T.pairs t.below) t.codes.codes.items (T.lawful t.below) };

    fn string_of(&self, code: u32) -> Option<&[u8]> {
        if let Some(string) = listing::string_of(&self.codes, code) {
            if self.is_laid() {
                return Some(string);
            }
        }
        self.below.string_of(code)
    }

    fn look_up(&self, cells: &[u8]) -> Match {
        let found = listing::look_up(&self.codes, cells);
        let below = self.below.look_up(cells);
        if found.is_neither() {
            return below;
        }
        if self.is_laid() {
            found.or(below)
        } else {
            below
        }
    }
}
