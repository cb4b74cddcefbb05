//! Pieces into slots, and back into the vector that they came from.
ghost use Rattle.std.specs.Prelude.{◌≡◌, ◌≤◌, [], map, Some, IsSome, All, MatchResult, length};
ghost use Rattle.std.specs.Vec.{vec_capacity};

use std::alloc::{AllocError, Global};

/// Moves each piece into a slot, in order. The vector keeps its room. If allocation fails it keeps the pieces.
pub fn to_slots<P: Drop>(alloc: Global, pieces: &mut Vec<P>) -> Result<Vec<Option<P>>, AllocError>
    ensures slots { MatchResult result (λ slots. slots.items ≡ map Some pieces.old.items) (λ _. pieces.new.items ≡ pieces.old.items) }
    ensures room { MatchResult result (λ slots. (pieces.new.items ≡ []) × (length slots.items ≤ vec_capacity pieces.new)) (λ _. Unit {0}) }
{
    let mut slots = Vec::with_capacity(alloc, pieces.len())?;
    'pieces: while let Some(piece) = pieces.pop() {
        slots.push_reserved(Some(piece));
    }
    slots.as_mut_slice().reverse();
    Ok(slots)
}

/// Moves the pieces of the slots back into a vector that has room for them.
pub fn from_slots<P: Drop>(pieces: &mut Vec<P>, mut slots: Vec<Option<P>>)
    requires empty { pieces.old.items ≡ [] }
    requires room { length slots.items ≤ vec_capacity pieces.old }
    requires full { All IsSome slots.items }
    ensures { map Some pieces.new.items ≡ slots.items }
{
    'slots: while let Some(slot) = slots.pop() {
        pieces.push_reserved(slot.unwrap());
    }
    pieces.as_mut_slice().reverse();
}
