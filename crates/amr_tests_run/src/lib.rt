//! Tests of the program as one call, by its two public calls alone. They stand here and not beside what they test, so that it is
//! not proved a second time with them.
#![tactic(auto)]

#[cfg(test)]
mod batch;
#[cfg(test)]
mod cases;
#[cfg(test)]
mod faults;
#[cfg(test)]
mod gate;
#[cfg(test)]
mod kept;
#[cfg(test)]
mod settled;
#[cfg(test)]
mod stops;
#[cfg(test)]
mod versions;
#[cfg(test)]
mod worked;
