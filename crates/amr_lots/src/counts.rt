//! How many lots the patches of a level are in.

ghost use Rattle.std.specs.Prelude.{◌≡◌, ◌≤◌, ◌<◌, ◌+◌, ◌*◌, max};
ghost use Rattle.amr_lots.specs.Runs.{lot_count, lot_size};

/// How many patches each lot has, where so many lots are wanted of a level's patches: the fewest with which that many lots hold them
/// all. The last lot may have fewer.
pub fn lot_size(patches: usize, wanted: usize) -> usize
    ensures size { result ≡ lot_size wanted patches }
    ensures some { 0 < result }
    ensures few { result ≤ max 1 patches }
{
    patches.div_ceil(wanted.max(1)).max(1)
}

/// How many lots that makes: as many as are wanted, or the fewer that hold all patches.
pub fn lot_count(patches: usize, wanted: usize) -> usize
    ensures count { result ≡ lot_count wanted patches }
    ensures enough { patches ≤ result * lot_size wanted patches }
    ensures tight { result * lot_size wanted patches < patches + lot_size wanted patches }
    ensures few { result ≤ patches }
    ensures most { result ≤ max 1 wanted }
{
    patches.div_ceil(lot_size(patches, wanted))
}
