// The sign tables of the product: the print signs of UEB, and house signs over any table.
#![tactic(auto)]

pub mod clash;
pub mod house;
mod house_codes;
pub mod ueb;
