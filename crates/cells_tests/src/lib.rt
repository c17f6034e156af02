// Examples of cells, strips, embossers and carriers, each proved and run.
#![tactic(auto)]

#[cfg(test)]
mod alike;
#[cfg(test)]
mod ascii;
#[cfg(test)]
mod carrier;
#[cfg(test)]
mod commands;
#[cfg(test)]
mod display;
#[cfg(test)]
mod pressing;
#[cfg(test)]
mod single;
#[cfg(test)]
mod unicode;
