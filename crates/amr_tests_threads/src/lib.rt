//! Tests of what threads share, by public items alone: mailboxes, workers on a board, the core of a board,
//! letters between ranks, a round of them over channels, and totals brought together by it.
//! They stand here and not beside what they test, so that no crate is proved a second time with its tests.
#![tactic(auto)]

#[cfg(test)]
mod board;
#[cfg(test)]
mod gather;
#[cfg(test)]
mod mailbox;
#[cfg(test)]
mod phase;
#[cfg(test)]
mod post;
#[cfg(test)]
mod ranks;
#[cfg(test)]
mod team;
