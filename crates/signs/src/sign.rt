// The record of one print sign.
use crate::typeform::Typeforms;

// The numbers may be bad, since whoever keys a label may key them so: the calls that take signs refuse them.
#[derive(Clone, Copy, PartialEq, Eq, Debug)]
pub struct Sign {
    // only a Unicode scalar value names a sign
    pub code: u32,
    // 0 for none, or the number of an accent
    pub accent: u8,
    pub forms: Typeforms,
}
