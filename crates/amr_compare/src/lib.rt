//! A step of a mesh compared with the step of the witness: over worked states, and over sound states that a fixed generator draws.
//! It is all tests.
#![tactic(auto)]

#[cfg(test)]
mod problems;
#[cfg(test)]
mod states;
#[cfg(test)]
mod steps;
#[cfg(test)]
mod worked;
