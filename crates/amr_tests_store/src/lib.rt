//! Tests of where bytes come from and go to, the disk, the store and the board, by public items alone: a module for each crate.
//! They stand here and not beside what they test, so that no crate is proved a second time with its tests.
#![tactic(auto)]

#[cfg(test)]
mod board;
#[cfg(test)]
mod disk;
#[cfg(test)]
mod io;
#[cfg(test)]
mod records;
#[cfg(test)]
mod store;
