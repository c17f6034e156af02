// What can stand on a label: print signs, and what a sign table is.
#![tactic(auto)]

pub mod accent;
pub mod kind;
pub mod listing;
pub mod sign;
pub mod table;
pub mod typeform;
