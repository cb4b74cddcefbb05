//! A swept lot becomes a finished one, where what flows through its border faces is on the board.

ghost use Rattle.std.specs.Prelude.{◌≡◌, ◌≢◌, ◌≤◌, ◌<◌, ◌+◌, ◌^◌, ℕ, length, slice_index, true, false};
ghost use Rattle.std.specs.List.{All};
ghost use Rattle.amr_flux.specs.Rooms.{widest};
ghost use Rattle.amr_phase.specs.Plans.{planned_face};
ghost use Rattle.amr_board.specs.BoardOf.{IsSeatOf, view};
ghost use Rattle.amr_lots.specs.declared.lot.LotStage.TheVariants.{Raw, Swept};
ghost use Rattle.amr_lots.specs.declared.lot.Work.{Work as some_work};
ghost use Rattle.amr_lots.specs.Lots.{HasStepped};
ghost use Rattle.amr_lots.specs.Looks.{HasLookedOnly, HasLookedInVain};
ghost use Rattle.amr_lots.specs.Ready.{MayFinish};
ghost use Rattle.amr_lots.specs.Duties.{MaySend};
ghost use Rattle.amr_lots.specs.LotSteps.{AreSizesAt, AreSizesOf, CanRead, CanStepBorder, CanStepWhere, HasFinishedLot, HasRead};
ghost use Rattle.amr_lots.specs.LotSteps.{HasSteppedWhere, HaveStepped, IsReadable, KeepsButSizes, MayStepIn, ReadsNone, ReadsSome};
ghost use Rattle.amr_lots.specs.Works.{StandsFor, layouts_of, places_read};

use crate::duties::send;
use crate::lot::{Lot, LotStage, Work, Workspace};
use amr_board::{Board, Seat};
use amr_def::Problem;
use amr_flux::{Room, update_by};
use amr_layout::PatchLayout;
use amr_patch::Patch;

/// Reads what flows through the border faces at these places, up to the first where nothing is put yet. True where all are there.
fn read_places(
    board: &Board<Work>,
    seat: &mut Seat<Work>,
    border: &[u32],
    sizes: &mut [u32],
) -> bool
    requires seat { IsSeatOf board.now seat.old }
    requires room { length border.now ≤ length sizes.old }
    requires readable { All (IsReadable (planned_face board.now.plan) board.now.plan.places) border.now }
    ensures seat { IsSeatOf board.now seat.new }
    ensures looked { HasLookedOnly (view seat.old) (view seat.new) }
    ensures count { length sizes.new ≡ length sizes.old }
    ensures all { result ≡ true → (k : ℕ) → k < length border.now
        → planned_face board.now.plan (slice_index border.now k) ≡ slice_index sizes.new k + 1 }
    ensures missing { result ≡ false → HasLookedInVain border.now (view seat.old) (view seat.new) }
{
    for (k, place) in border.iter().enumerate() {
        let Some(size) = board.face(seat, *place) else {
            return false;
        };
        sizes[k] = size as u32;
    }
    true
}

/// The same of all patches, one after another.
fn read_border(
    board: &Board<Work>,
    seat: &mut Seat<Work>,
    layouts: &[PatchLayout],
    sizes: &mut [u32],
) -> bool
    requires seat { IsSeatOf board.now seat.old }
    requires room { length (places_read layouts.now) ≤ length sizes.old }
    requires readable { All (IsReadable (planned_face board.now.plan) board.now.plan.places) (places_read layouts.now) }
    ensures seat { IsSeatOf board.now seat.new }
    ensures looked { HasLookedOnly (view seat.old) (view seat.new) }
    ensures count { length sizes.new ≡ length sizes.old }
    ensures all { result ≡ true → (k : ℕ) → k < length (places_read layouts.now)
        → planned_face board.now.plan (slice_index (places_read layouts.now) k) ≡ slice_index sizes.new k + 1 }
    ensures missing { result ≡ false → HasLookedInVain (places_read layouts.now) (view seat.old) (view seat.new) }
{
    let mut done = 0;
    for k in 0..layouts.len() {
        let border = layouts[k].border.as_slice();
        let end = done + border.len();
        if !read_places(board, seat, border, &mut sizes[done..end]) {
            return false;
        }
        done = end;
    }
    true
}

/// Reads what flows through the border faces of a lot's patches, up to the first where nothing is put yet. True where all are there.
fn read_sizes(board: &Board<Work>, seat: &mut Seat<Work>, lot: &mut Lot) -> bool
    requires seat { IsSeatOf board.now seat.old }
    requires read { CanRead (planned_face board.now.plan) board.now.plan.places lot.old }
    ensures seat { IsSeatOf board.now seat.new }
    ensures looked { HasLookedOnly (view seat.old) (view seat.new) }
    ensures others { KeepsButSizes lot.old lot.new }
    ensures all { result ≡ true → HasRead (planned_face board.now.plan) lot.new }
    ensures missing { result ≡ false → HasLookedInVain (places_read lot.old.workspace.layouts.items) (view seat.old) (view seat.new) }
{
    let Workspace { layouts, sizes, .. } = &mut lot.workspace;
    read_border(board, seat, layouts, sizes)
}

/// Makes the step of a patch if it reads places, by the sizes of what flows through the faces that it reads.
fn step_if_border(
    p: &Problem,
    l: u32,
    layout: &PatchLayout,
    sizes: &[u32],
    patch: &mut Patch,
    room: &mut Room,
)
    requires may { ReadsSome layout.now → MayStepIn p.now l (widest room.old) patch.old }
    requires sizes { ReadsSome layout.now → AreSizesAt p.now l sizes.now layout.now patch.old }
    ensures stepped { ReadsSome layout.now → HasStepped p.now l patch.old patch.new }
    ensures stays { ReadsNone layout.now → patch.new ≡ patch.old }
    ensures room { widest room.new ≡ widest room.old }
{
    if layout.border.as_slice().is_empty() {
        return;
    }
    update_by(p, l, patch, &layout.mask, sizes, room);
}

/// Makes the step of those patches that read places, by the sizes of what flows through the faces that they read, one patch after another.
fn step_border(
    p: &Problem,
    l: u32,
    patches: &mut [Patch],
    layouts: &[PatchLayout],
    sizes: &[u32],
    room: &mut Room,
)
    requires steps { CanStepWhere p.now l (widest room.old) ReadsSome layouts.now patches.old }
    requires sizes { AreSizesOf p.now l sizes.now layouts.now patches.old }
    ensures stepped { HaveStepped p.now l ReadsSome ReadsNone layouts.now patches.old patches.new }
    ensures room { widest room.new ≡ widest room.old }
{
    let mut done = 0;
    for k in 0..patches.len() {
        let layout = &layouts[k];
        let border = layout.border.as_slice();
        let end = done + border.len();
        step_if_border(p, l, layout, &sizes[done..end], &mut patches[k], room);
        done = end;
    }
}

/// The same in a lot.
fn update_border(p: &Problem, l: u32, lot: &mut Lot)
    requires { CanStepBorder p.now l lot.old }
    ensures { HasSteppedWhere p.now l ReadsSome ReadsNone lot.old lot.new }
{
    let Workspace {
        layouts,
        sizes,
        room,
        ..
    } = &mut lot.workspace;
    step_border(p, l, &mut lot.patches, layouts, sizes, room);
}

/// Finishes a swept lot whose sizes of what flows through the faces that it reads are there: the patches that wait make their step, and then
/// what other lots need is packed.
pub(crate) fn finish_lot(p: &Problem, l: u32, lot: &mut Lot)
    requires borders { CanStepBorder p.now l lot.old }
    requires sends { MaySend lot.old }
    ensures { HasFinishedLot p.now l lot.old lot.new }
{
    update_border(p, l, lot);
    send(lot);
}

/// Makes the new masses of the patches of a swept lot that read places, where what flows through each of their border faces is on the board,
/// and packs what other lots need at the next step. Where one face is not there yet it stops at the first such, and the lot stays swept.
pub fn finish(p: &Problem, board: &Board<Work>, seat: &mut Seat<Work>, mut work: Work) -> Work
    requires seat { IsSeatOf board.now seat.old }
    requires ready { MayFinish p.now (planned_face board.now.plan) board.now.plan.places work }
    ensures seat { IsSeatOf board.now seat.new }
    ensures looked { HasLookedOnly (view seat.old) (view seat.new) }
    ensures stands { (raw : some_work) → StandsFor raw work → StandsFor raw result }
    ensures stage { result.stage ≢ Raw }
    ensures missing { result.stage ≡ Swept → HasLookedInVain (places_read (layouts_of work)) (view seat.old) (view seat.new) }
    ensures again { result.stage ≡ Swept → MayFinish p.now (planned_face board.now.plan) board.now.plan.places result }
{
    if !read_sizes(board, seat, &mut work.lot) {
        return work;
    }
    finish_lot(p, work.level, &mut work.lot);
    work.stage = LotStage::Finished;
    work
}
