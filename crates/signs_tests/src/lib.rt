// Examples of signs, sign tables and house signs, each proved and run.
#![tactic(auto)]

#[cfg(test)]
mod braille;
#[cfg(test)]
mod callers;
#[cfg(test)]
mod fixed;
#[cfg(test)]
mod house;
#[cfg(test)]
mod laws;
#[cfg(test)]
mod small_tables;
#[cfg(test)]
mod ueb;
#[cfg(test)]
mod words;
