//! What lies in a mailbox.

/// What the slot of a mailbox holds.
#[derive(Drop)]
pub enum Mail<O, A> {
    Empty,
    Order(O),
    Answer(A),
}
