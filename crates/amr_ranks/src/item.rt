//! What letters carry.

ghost use Rattle.std.specs.Prelude.{◌≡◌, ◌+◌, ◌*◌, ◌^◌, ◌<◌};

/// What a letter says: the mass of a cell of a patch's frame, or a share of a total.
#[derive(Clone, Copy, PartialEq, Eq, Debug)]
pub enum Item {
    /// The cell at this slot of the frame of this patch has this mass.
    Cell { patch: u32, slot: u32, mass: u64 },
    /// So much is to be added to the total of this word.
    Share { word: u32, amount: u64 },
}

/// A cell of the frame of a patch, and its mass.
#[derive(Clone, Copy, PartialEq, Eq, Debug)]
pub struct FrameCell {
    pub patch: u32,
    pub slot: u32,
    pub mass: u64,
}

impl FrameCell {
    ghost use Rattle.amr_ranks.specs.Items.{is_at, place_of};

    /// Whether it is the cell at this slot of this patch.
    pub fn is_at(&self, patch: u32, slot: u32) -> bool
        ensures { result ≡ is_at patch slot self.now }
    {
        self.patch == patch && self.slot == slot
    }

    // Its place in the order by patches, then by slots.
    pub(crate) fn place(&self) -> u64
        ensures { result ≡ place_of self.now }
    {
        place(self.patch, self.slot)
    }
}

/// The place of a cell in the order by patches, then by slots.
pub(crate) fn place(patch: u32, slot: u32) -> u64
    ensures { result ≡ patch * 2 ^ 32 + slot }
{
    u64::from(patch) * (1 << 32) + u64::from(slot)
}
