//! What flowed to the words of a level in a step, added to what the step adds to: to the sums what flowed to the ledger's words, to the
//! entries of the next coarser level's register what flowed to the others.

ghost use Rattle.std.specs.Prelude.{◌≡◌, ◌+◌, ◌*◌, ◌<◌, ◌^◌, ℕ, length, slice_index, IfSome};
ghost use Rattle.amr_advance.specs.KeptLayouts.{HasFirstTotals, totals_in};
ghost use Rattle.amr_advance.specs.Registers.{cells_of};
ghost use Rattle.amr_advance.specs.Totals.{SomeHasAbsorbed, SomeMayAbsorb};

use crate::kept_layout::KeptLayout;
use crate::lots::totals_of;
use crate::registers::{Regs, absorb_totals};

/// Adds what flowed to all words, by their totals one after another.
fn add_all(totals: &[u64], regs: &mut Regs)
    requires count { length totals.now ≡ 2 + 2 * length (cells_of regs.old.coarser) }
    requires few { length totals.now < 2 ^ 32 }
    requires small { (word : ℕ) → word < length totals.now → slice_index totals.now word < 2 ^ 63 }
    requires inflow { regs.old.inflow + slice_index totals.now 0 < 2 ^ 63 }
    requires outflow { regs.old.outflow + slice_index totals.now 1 < 2 ^ 63 }
    requires coarser { SomeMayAbsorb totals.now regs.old.coarser }
    ensures inflow { regs.new.inflow ≡ regs.old.inflow + slice_index totals.now 0 }
    ensures outflow { regs.new.outflow ≡ regs.old.outflow + slice_index totals.now 1 }
    ensures coarser { SomeHasAbsorbed totals.now regs.old.coarser regs.new.coarser }
    ensures finer { regs.new.finer ≡ regs.old.finer }
{
    regs.inflow += totals[0];
    regs.outflow += totals[1];
    match &mut regs.coarser {
        Some(register) => absorb_totals(totals, register),
        None => (),
    }
}

/// Adds the totals of a step: the ledger's words to the sums, and the others to the register of the next coarser level.
pub(crate) fn add_totals(kept: &Option<KeptLayout>, regs: &mut Regs)
    requires lots { IfSome kept.now HasFirstTotals }
    requires count { length (totals_in kept.now) ≡ 2 + 2 * length (cells_of regs.old.coarser) }
    requires few { length (totals_in kept.now) < 2 ^ 32 }
    requires small { (word : ℕ) → word < length (totals_in kept.now) → slice_index (totals_in kept.now) word < 2 ^ 63 }
    requires inflow { regs.old.inflow + slice_index (totals_in kept.now) 0 < 2 ^ 63 }
    requires outflow { regs.old.outflow + slice_index (totals_in kept.now) 1 < 2 ^ 63 }
    requires coarser { SomeMayAbsorb (totals_in kept.now) regs.old.coarser }
    ensures inflow { regs.new.inflow ≡ regs.old.inflow + slice_index (totals_in kept.now) 0 }
    ensures outflow { regs.new.outflow ≡ regs.old.outflow + slice_index (totals_in kept.now) 1 }
    ensures coarser { SomeHasAbsorbed (totals_in kept.now) regs.old.coarser regs.new.coarser }
    ensures finer { regs.new.finer ≡ regs.old.finer }
{
    let Some(layout) = kept else {
        return;
    };
    add_all(totals_of(&layout.lots), regs);
}
