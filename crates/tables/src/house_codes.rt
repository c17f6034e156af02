// The codes of house signs, each with the string of its position.
ghost use Rattle.std.specs.Prelude.{◌≡◌, ◌≤◌, length, take};
ghost use Rattle.tables.specs.House.{house};

use arrayvec::ArrayVec;
use signs::listing::{Listed, Listing};

// The strings, by position.
pub(crate) static STRINGS: [[u8; 3]; 5] = [
    [8, 60, 57],
    [24, 60, 57],
    [56, 60, 57],
    [16, 60, 57],
    [40, 60, 57],
];

#[derive(Drop)]
pub(crate) struct HouseCodes {
    codes: ArrayVec<u32, 5>,
}

impl HouseCodes {
    // The first five of these codes.
    pub(crate) fn of(codes: &[u32]) -> HouseCodes
        ensures { result.codes.items ≡ take 5 codes.now }
    {
        let mut first = ArrayVec::new();
        // Five fit.
        let _ = first.try_extend_from_slice(&codes[..codes.len().min(5)]);
        HouseCodes { codes: first }
    }

    pub(crate) fn as_slice(&self) -> &[u32]
        ensures value { result.now ≡ self.now.codes.items }
        ensures few { length result.now ≤ 5 }
    {
        self.codes.as_slice()
    }
}

impl Listing for HouseCodes {
    ghost entries = { λ h. house h.codes.items };

    fn count(&self) -> usize {
        self.as_slice().len()
    }

    fn listed(&self, position: usize) -> Option<Listed<'_>> {
        let code = *self.as_slice().get(position)?;
        let string = STRINGS.get(position)?;
        Some(Listed { code, string })
    }
}
