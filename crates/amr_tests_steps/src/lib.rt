//! Tests of steps, regrids and runs, by public items alone: a module for each crate. They stand here and not beside what they
//! test, so that no crate is proved a second time with its tests.
#![tactic(auto)]

#[cfg(test)]
mod advance;
#[cfg(test)]
mod board;
#[cfg(test)]
mod cycle;
#[cfg(test)]
mod drive;
#[cfg(test)]
mod rows;
#[cfg(test)]
mod start;
