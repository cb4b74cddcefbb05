//! Copies of levels.

ghost use Rattle.std.specs.Prelude.{◌≡◌, map, IfOk};
ghost use Rattle.amr_patch.specs.Levels.{IsLevelCopy, level_of};
ghost use Rattle.amr_patch.specs.Pairwise.{Pairwise};

use crate::levels::Level;
use amr_causes::NoMemory;
use std::alloc::Global;

/// A copy of each level.
pub(crate) fn copied_levels(alloc: Global, levels: &[Level]) -> Result<Vec<Level>, NoMemory>
    ensures levels { IfOk result (λ v. map level_of v.items ≡ map level_of levels.now) }
    ensures copies { IfOk result (λ v. Pairwise IsLevelCopy levels.now v.items) }
{
    let mut copies = Vec::new(alloc);
    for level in levels {
        copies.push(level.copy()?)?;
    }
    Ok(copies)
}
