//! Tests of what bytes stand for, a problem's text and a state's payload, by public items alone: a module for each crate. They
//! stand here and not beside what they test, so that no crate is proved a second time with its tests.
#![tactic(auto)]

#[cfg(test)]
mod codec;
#[cfg(test)]
mod fields;
#[cfg(test)]
mod payloads;
#[cfg(test)]
mod problem;
#[cfg(test)]
mod records;
#[cfg(test)]
mod trial;
