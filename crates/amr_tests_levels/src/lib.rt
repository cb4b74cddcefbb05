//! Tests of levels, with their frames, masses and registers, by public items alone: a module for each crate. They stand
//! here and not beside what they test, so that no crate is proved a second time with its tests.
#![tactic(auto)]

#[cfg(test)]
mod alike;
#[cfg(test)]
mod boxes;
#[cfg(test)]
mod frames;
#[cfg(test)]
mod letters;
#[cfg(test)]
mod plans;
#[cfg(test)]
mod register;
#[cfg(test)]
mod transfer;
