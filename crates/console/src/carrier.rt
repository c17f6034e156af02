// The two carriers by name.
ghost use Rattle.std.specs.Prelude.{◌≡◌, ◌*◌, take, drop};
ghost use Rattle.std.specs.Result.{result_ok};
ghost use Rattle.console.specs.Converting.{bytes_a_cell};
ghost use Rattle.console.specs.Words.{Names, carrier_name};

use std::str::FromStr;
use thiserror::Error;

#[derive(Clone, Copy)]
pub enum Carrier {
    Ascii,
    Unicode,
}

// A word that names no carrier.
#[derive(Clone, Copy, PartialEq, Eq, Debug, Error)]
#[error("a carrier is ascii or unicode")]
pub struct UnknownCarrier;

// A table of its own, as for all enums that a word or a number names.
impl FromStr for Carrier {
    type Err = UnknownCarrier;

    ghost from_str_gives = { λ word named. Names carrier_name word (result_ok named) };

    fn from_str(word: &str) -> Result<Carrier, UnknownCarrier> {
        match word {
            "ascii" => Ok(Carrier::Ascii),
            "unicode" => Ok(Carrier::Unicode),
            _ => Err(UnknownCarrier),
        }
    }
}

impl Carrier {
    // The number of bytes a cell.
    pub fn width(self) -> usize
        ensures { result ≡ bytes_a_cell self }
    {
        match self {
            Carrier::Ascii => 1,
            Carrier::Unicode => 3,
        }
    }

    // The bytes of one place: fewer where the carrier is cut off, and none past its end.
    pub fn group(self, bytes: &[u8], place: usize) -> &[u8]
        ensures { result.now ≡ take (bytes_a_cell self) (drop (place * bytes_a_cell self) bytes.now) }
    {
        let width = self.width();
        let rest = bytes.get(place.saturating_mul(width)..).unwrap_or(&[]);
        rest.get(..width).unwrap_or(rest)
    }
}
