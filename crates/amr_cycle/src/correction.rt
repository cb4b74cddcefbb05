//! What a level gets after both steps of the next finer one.

ghost use Rattle.std.specs.Prelude.{◌≡◌, ℕ, ◌^◌, ◌<◌, pos, ◌+ℤ◌, ◌≤ℤ◌, ◌<ℤ◌, IfSome, IsSome, OnOk, map};
ghost use Rattle.std.specs.List.{Contains};
ghost use Rattle.amr_box.specs.declared.Cell.{Cell};
ghost use Rattle.amr_box.specs.Cells.{parent};
ghost use Rattle.amr_def.specs.State.{children_mass, mass_of};
ghost use Rattle.amr_patch.specs.Levels.{level_of, patches_of};
ghost use Rattle.amr_patch.specs.Patches.{box};
ghost use Rattle.amr_register.specs.Entries.{with_entries};
ghost use Rattle.amr_register.specs.Fields.{HasEdgesOf, IsPlaced};
ghost use Rattle.amr_advance.specs.KeptLayouts.{IsKeptLayout, StaysKept};
ghost use Rattle.amr_advance.specs.Registers.{cells_of};
ghost use Rattle.amr_advance.specs.Crews.{MayRun};
ghost use Rattle.amr_cycle.specs.Cycles.{entries_of};
ghost use Rattle.amr_transfer.specs.Sums.{AreCoarsenable, summed};

use amr_advance::{KeptLayout, Workers, correct_kept};
use amr_causes::NoMemory;
use amr_def::Problem;
use amr_patch::Level;
use amr_register::Register;
use amr_workers::Gate;
use std::sync::Wait;
use std::thread::Threads;

/// Gives each register cell its entry, and each covered cell the sum of its children, by the register that there is and by what is kept of both
/// levels. The register stays, and what is kept of the level is of its corrected masses.
pub(crate) fn correct<R: Threads + Wait + Sync, G: Gate + Sync>(
    workers: &mut Workers<'_, R, G>,
    p: &Problem,
    level: &mut Level,
    register: &mut Option<Register>,
    finer: &mut Level,
    kept: &mut Option<KeptLayout>,
) -> Result<(), NoMemory>
    requires some { IsSome register.old }
    requires placed { IfSome register.old IsPlaced }
    requires edges { IfSome register.old (HasEdgesOf (map box (patches_of level.old))) }
    requires of_level { (c : Cell) → Contains (cells_of register.old) c → IsSome ((level_of level.old).masses c) }
    requires not_negative { (c : Cell) → Contains (cells_of register.old) c
        → pos 0 ≤ℤ (pos (mass_of (level_of level.old).masses c) +ℤ entries_of register.old c) }
    requires fits { (c : Cell) → Contains (cells_of register.old) c
        → (pos (mass_of (level_of level.old).masses c) +ℤ entries_of register.old c) <ℤ pos (2 ^ 32) }
    requires parents { (c : Cell) → IsSome ((level_of finer.old).masses c) → IsSome ((level_of level.old).masses (parent c)) }
    requires coarsenable { AreCoarsenable (patches_of finer.old) }
    requires small { (c : Cell) → children_mass (level_of finer.old).masses c < 2 ^ 32 }
    requires crew { (tasks : ℕ) → MayRun G.admits p.now tasks workers.old }
    requires kept { IfSome kept.old (IsKeptLayout p.now) }
    ensures workers { workers.new ≡ workers.old }
    ensures register { OnOk result (register.new ≡ register.old) }
    ensures masses { OnOk result ((level_of level.new).masses
        ≡ summed (level_of finer.old).masses (with_entries (entries_of register.old) (level_of level.old).masses)) }
    ensures boxes { OnOk result ((level_of level.new).boxes ≡ (level_of level.old).boxes) }
    ensures patches { OnOk result (map box (patches_of level.new) ≡ map box (patches_of level.old)) }
    ensures finer { OnOk result (level_of finer.new ≡ level_of finer.old) }
    ensures finer_patches { OnOk result (patches_of finer.new ≡ patches_of finer.old) }
    ensures kept { OnOk result (StaysKept (λ own. (level_of level.new).masses) kept.old kept.new) }
{
    let Some(whole) = register.take() else {
        unreachable!()
    };
    let whole = correct_kept(workers, p, level, whole, finer, kept)?;
    *register = Some(whole);
    Ok(())
}
