//! Patches shared out among ranks by their areas.

ghost use Rattle.std.specs.Prelude.{◌≡◌, ◌<◌, ◌≤◌, ◌^◌, IfOk, length, map, sum};
ghost use Rattle.amr_balance.specs.Shares.{IsShare, lists_in};
ghost use Rattle.amr_owners.specs.Owners.{AreOwners, area_of};

use amr_balance::share;
use amr_causes::NoMemory;
use amr_patch::Patch;
use std::alloc::Global;

/// The areas of these patches. They add up to less than 2^48, or it is `NoMemory`.
fn areas_of(alloc: Global, patches: &[Patch]) -> Result<Vec<u64>, NoMemory>
    ensures areas { IfOk result (λ v. v.items ≡ map area_of patches.now) }
    ensures small { IfOk result (λ v. sum v.items < 2 ^ 48) }
{
    let mut areas = Vec::new(alloc);
    let mut total = 0u64;
    for patch in patches {
        let area = patch.bx().area();
        if area >= (1 << 48) - total {
            return Err(NoMemory);
        }
        total += area;
        areas.push(area)?;
    }
    Ok(areas)
}

/// The numbers of the patches of each rank, in order: shares of their areas (number of cells). Each patch is of one rank. There
/// are 1 to 64 ranks. `NoMemory` is the only refusal: also where there are 2^32 patches or their areas add up to 2^48.
pub fn make(alloc: Global, patches: &[Patch], ranks: u32) -> Result<Vec<Vec<u32>>, NoMemory>
    requires some { 1 ≤ ranks }
    requires few { ranks ≤ 64 }
    ensures shares { IfOk result (λ v. IsShare (map area_of patches.now) ranks (lists_in v.items)) }
    ensures owners { IfOk result (λ v. AreOwners (lists_in v.items) ranks (length patches.now)) }
{
    let areas = areas_of(alloc, patches)?;
    if areas.len() >= 1 << 32 {
        return Err(NoMemory);
    }
    share(alloc, &areas, ranks)
}
