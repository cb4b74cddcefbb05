//! Tests of boxes, lists of boxes, projections, shares, tags and clusters, by public items alone: a module for each crate. They
//! stand here and not beside what they test, so that no crate is proved a second time with its tests.
#![tactic(auto)]

#[cfg(test)]
mod balance;
#[cfg(test)]
mod box_calculus;
#[cfg(test)]
mod box_lists;
#[cfg(test)]
mod boxes;
#[cfg(test)]
mod cluster;
#[cfg(test)]
mod projection;
#[cfg(test)]
mod sign;
#[cfg(test)]
mod tags;
