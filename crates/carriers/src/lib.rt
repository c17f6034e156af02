// The carriers of a tape: ASCII and Unicode.
#![tactic(auto)]

pub mod ascii;
pub mod code;
mod memory;
pub mod strip;
pub mod tape;
pub mod unicode;
