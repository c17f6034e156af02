// Cells, and the strips and embossers that hold them.
#![tactic(auto)]

pub mod ascii;
pub mod cell_strip;
pub mod copy;
pub mod display;
pub mod refusal;
pub mod strip;
