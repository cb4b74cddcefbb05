//! A letter from one rank to another.

use crate::item::Item;
use std::marker::Model;

/// Items for a rank, under a number. Of the letters to one rank no two have the same number.
#[derive(Drop)]
pub struct Letter {
    number: u32,
    to: u32,
    items: Vec<Item>,
}

impl Model for Letter {
    ghost use Rattle.amr_ranks.specs.Letters.{LetterOf};

    ghost Value = { LetterOf };

    ghost view = { λ l. record { number = l.number; to = l.to; items = l.items.items } };
}

impl Letter {
    ghost use Rattle.std.specs.Prelude.{◌≡◌, IsTrue, slice_index_or, slice_set};
    ghost use Rattle.amr_ranks.specs.Items.{is_share, no_item, with_amount};

    /// The letter with this number to this rank.
    pub fn make(number: u32, to: u32, items: Vec<Item>) -> Letter
        ensures { result ≡ record { number = number; to = to; items = items.items } }
    {
        Letter { number, to, items }
    }

    pub fn number(&self) -> u32
        ensures { result ≡ self.now.number }
    {
        self.number
    }

    /// The rank that it is sent to.
    pub fn to(&self) -> u32
        ensures { result ≡ self.now.to }
    {
        self.to
    }

    /// Its items, in order.
    pub fn items(&self) -> &[Item]
        ensures { result.now ≡ self.now.items }
    {
        self.items.as_slice()
    }

    /// Gives the share that is item `i`, counted from 0, this amount. All else stays.
    pub fn set_amount(&mut self, i: usize, amount: u64)
        requires { IsTrue (is_share (slice_index_or self.old.items i no_item)) }
        ensures { self.new ≡ record self.old { items = slice_set self.old.items i (with_amount (slice_index_or self.old.items i no_item) amount) } }
    {
        if let Item::Share { word, .. } = self.items[i] {
            self.items[i] = Item::Share { word, amount };
        }
    }
}
