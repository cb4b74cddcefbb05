//! What an end of a mailbox knows. No value of these types is made: contracts and proofs alone see them.

/// Which end it is. A new mailbox has one end, which opens it and then parts into both.
pub enum Role {
    Unopened,
    Parting,
    Asks,
    Works,
}

/// How far an end is: with no order, with this one, or past the dismissal.
pub enum Turn<O> {
    Free,
    Busy(O),
    Over,
}

/// What an end knows of the mailbox and of itself.
pub struct View<O, K> {
    /// What the mailbox was told.
    pub key: K,
    pub role: Role,
    pub turn: Turn<O>,
}
