//! What is asked for, and what is answered.

/// Which orders may be posted, by a key that the mailbox is told once, and which answers serve an order.
pub trait Errand<O, A, K> {
    ghost may: { K → O → Type 0 };

    ghost serves: { O → A → Type 0 };
}
