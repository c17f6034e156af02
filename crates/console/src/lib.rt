// What the commands of the program do, as functions on values.
#![tactic(auto)]

pub mod carrier;
pub mod convert;
pub mod house;
pub mod show;
