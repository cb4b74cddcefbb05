//! A swept lot becomes a finished one by a closed board.

ghost use Rattle.std.specs.Prelude.{◌≡◌, ◌≤◌, ◌<◌, ◌+◌, ◌^◌, ℕ, length, slice_index};
ghost use Rattle.std.specs.List.{All};
ghost use Rattle.amr_board.specs.Ended.{face_of};
ghost use Rattle.amr_lots.specs.declared.lot.LotStage.TheVariants.{Finished};
ghost use Rattle.amr_lots.specs.declared.lot.Work.{Work as some_work};
ghost use Rattle.amr_lots.specs.Ready.{MayComplete};
ghost use Rattle.amr_lots.specs.LotSteps.{CanRead, HasRead, IsReadable, KeepsButSizes};
ghost use Rattle.amr_lots.specs.Works.{StandsFor, places_read};

use crate::border::finish_lot;
use crate::lot::{Lot, LotStage, Work, Workspace};
use amr_board::Ended;
use amr_def::Problem;
use amr_layout::PatchLayout;

/// Copies what was put at these places.
fn read_places(ended: &Ended<Work>, border: &[u32], sizes: &mut [u32])
    requires room { length border.now ≤ length sizes.old }
    requires readable { All (IsReadable (face_of ended.now) ended.now.places) border.now }
    ensures count { length sizes.new ≡ length sizes.old }
    ensures all { (k : ℕ) → k < length border.now → face_of ended.now (slice_index border.now k) ≡ slice_index sizes.new k + 1 }
{
    for (k, place) in border.iter().enumerate() {
        sizes[k] = ended.face(*place) as u32;
    }
}

/// The same of all patches, one after another.
fn read_border(ended: &Ended<Work>, layouts: &[PatchLayout], sizes: &mut [u32])
    requires room { length (places_read layouts.now) ≤ length sizes.old }
    requires readable { All (IsReadable (face_of ended.now) ended.now.places) (places_read layouts.now) }
    ensures count { length sizes.new ≡ length sizes.old }
    ensures all { (k : ℕ) → k < length (places_read layouts.now)
        → face_of ended.now (slice_index (places_read layouts.now) k) ≡ slice_index sizes.new k + 1 }
{
    let mut done = 0;
    for k in 0..layouts.len() {
        let border = layouts[k].border.as_slice();
        let end = done + border.len();
        read_places(ended, border, &mut sizes[done..end]);
        done = end;
    }
}

/// Copies what was put at the places that the patches of a lot read.
fn read_sizes(ended: &Ended<Work>, lot: &mut Lot)
    requires { CanRead (face_of ended.now) ended.now.places lot.old }
    ensures others { KeepsButSizes lot.old lot.new }
    ensures all { HasRead (face_of ended.now) lot.new }
{
    let Workspace { layouts, sizes, .. } = &mut lot.workspace;
    read_border(ended, layouts, sizes);
}

/// Makes a swept lot a finished one: no look found all that it reads before its board was closed. It takes that from the closed board. Then
/// it packs what other lots need. A finished one stays.
pub fn complete(p: &Problem, ended: &Ended<Work>, work: &mut Work)
    requires { MayComplete p.now ended.now work.old }
    ensures finished { work.new.stage ≡ Finished }
    ensures stands { (raw : some_work) → StandsFor raw work.old → StandsFor raw work.new }
{
    if work.stage.is_finished() {
        return;
    }
    read_sizes(ended, &mut work.lot);
    finish_lot(p, work.level, &mut work.lot);
    work.stage = LotStage::Finished;
}
