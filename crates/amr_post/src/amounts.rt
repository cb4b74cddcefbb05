//! Amounts of shares, set anew in letters that were not sent yet.

ghost use Rattle.std.specs.Prelude.{◌≡◌, Some, length, map};
ghost use Rattle.std.specs.List.{All};
ghost use Rattle.amr_ranks.specs.Letters.{LetterOf};
ghost use Rattle.amr_post.specs.declared.post.Parcel.{Parcel};
ghost use Rattle.amr_post.specs.Amounts.{AreShares, HasShares, items_with, parcel_with};

use crate::post::Parcel;
use amr_ranks::Letter;

/// A letter of shares gets these amounts, item for item.
fn set_items(letter: &mut Letter, amounts: &[u64])
    requires { AreShares letter.old.items (length amounts.now) }
    ensures { letter.new ≡ record letter.old { items = items_with letter.old.items amounts.now } }
{
    for (i, amount) in amounts.iter().enumerate() {
        letter.set_amount(i, *amount);
    }
}

/// The letter of a parcel gets these amounts, if it is the one with this number.
fn set_own(parcel: &mut Parcel, number: u32, amounts: &[u64])
    requires { (l : LetterOf) → parcel.old.letter ≡ Some l → HasShares number (length amounts.now) l }
    ensures { parcel.new ≡ parcel_with number amounts.now parcel.old }
{
    if let Some(letter) = &mut parcel.letter {
        if letter.number() == number {
            set_items(letter, amounts);
        }
    }
}

/// The letter with this number gets these amounts, in whichever parcel it is.
pub(crate) fn set_all(parcels: &mut [Parcel], number: u32, amounts: &[u64])
    requires { All (λ (q : Parcel). (l : LetterOf) → q.letter ≡ Some l → HasShares number (length amounts.now) l) parcels.old }
    ensures { parcels.new ≡ map (parcel_with number amounts.now) parcels.old }
{
    for parcel in parcels.iter_mut() {
        set_own(parcel, number, amounts);
    }
}
