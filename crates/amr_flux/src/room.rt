//! What a sweep and an update of a patch need besides the patch.

ghost use Rattle.std.specs.Prelude.{◌≡◌, ◌+◌, length};

use crate::columns::Columns;
use amr_causes::NoMemory;
use amr_faces::Share;
use std::alloc::Global;

/// Room for the fluxes through the faces of one row of cells, and the shares at the Courant numbers that were used last. It is
/// made once and serves all patches that are no wider, so that no step takes memory, and none makes a division for each face.
#[derive(Drop)]
pub struct Room {
    pub(crate) x_share: Share,
    pub(crate) y_share: Share,
    /// Through the x faces of the row.
    pub(crate) x: Vec<i32>,
    /// Through the y faces at the low side of the row.
    pub(crate) low: Vec<i32>,
    /// Through the y faces at the high side of the row.
    pub(crate) high: Vec<i32>,
    /// What flows out of the cells of the row across its y faces.
    pub(crate) across: Vec<u32>,
    pub(crate) columns: Columns,
    pub ghost x_count: { length x.items ≡ length low.items + 1 },
    pub ghost high_count: { length high.items ≡ length low.items },
    pub ghost across_count: { length across.items ≡ length low.items },
    pub ghost column_count: { length columns.low.items ≡ length low.items },
}

#[tactic(auto, unfolding(crate::specs::Rooms::widest))]
impl Room {
    ghost use Rattle.std.specs.Prelude.{◌<◌, IfOk, nat_le};
    ghost use Rattle.amr_flux.specs.Rooms.{widest};

    /// Room for patches of at most so many columns.
    pub fn make(alloc: Global, columns: u32) -> Result<Room, NoMemory>
        ensures { IfOk result (λ r. widest r ≡ columns) }
    {
        let columns = columns as usize;
        let x = vec![in alloc; 0i32; columns + 1]?;
        let low = vec![in alloc; 0i32; columns]?;
        let high = vec![in alloc; 0i32; columns]?;
        let across = vec![in alloc; 0u32; columns]?;
        let low_factors = vec![in alloc; 0u32; columns]?;
        let high_factors = vec![in alloc; 0u32; columns]?;
        Ok(Room {
            x_share: Share::make(0, 1),
            y_share: Share::make(0, 1),
            x,
            low,
            high,
            across,
            columns: Columns {
                low: low_factors,
                high: high_factors,
                limit: 0,
            },
        })
    }

    /// Whether it serves patches of so many columns.
    pub fn serves(&self, columns: u32) -> bool
        ensures { result ≡ nat_le columns (widest self.now) }
    {
        columns as usize <= self.low.len()
    }
}
