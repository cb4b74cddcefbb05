//! The judgement.

ghost use Rattle.std.specs.Prelude.{◌≡◌, ◌≤◌, Some, None, IfOk, OnOk, IsErrOf, unsigned_abs, [], ◌∷◌};
ghost use Rattle.std.specs.Option.{option_or};
ghost use Rattle.toml.specs.View.{table_view};
ghost use Rattle.amr_problem.specs.Faults.{unknown_key, missing_key, courant_over, fault_in};
ghost use Rattle.amr_problem.specs.Entries.{entry_fault, in_range_fault, FitsBasics, IsOverlayInRange, IsClean};
ghost use Rattle.amr_problem.specs.Fields.{IsOfEntries};
ghost use Rattle.amr_problem.specs.Judgement.{fault_of, HasKeys, IsProblemOf};

use crate::checks::{
    block_outside, blocking_misfit, courant_over, sides_differ, size_in_use, species_outside,
    tag_count,
};
use crate::document::{missing_key, read, unknown_key};
use crate::entries::{Basics, Entries, Overlay};
use crate::fault::{JudgeFault, ProblemFault};
use crate::problem::problem;
use crate::ranges::out_of_range;
use amr_def::Problem;
use std::alloc::{AllocError, Global};
use toml::Table;

/// The greatest number of bytes of a problem.
pub const MOST_BYTES: usize = 65536;

/// The problem that the bytes are, or their fault. Memory may run out at any bytes.
///
/// A problem is UTF-8 TOML with the keys of the table and no other. Of several faults the first in their order comes. (profile)
#[tactic(auto, unfolding(crate::specs::Judgement::fault_of))]
pub fn judge(alloc: Global, bytes: &[u8]) -> Result<Problem, JudgeFault>
    ensures accepted { IfOk result (IsProblemOf bytes.now) }
    ensures refused { (f : _) → IsErrOf result (JudgeFault.Fault f) → fault_of bytes.now ≡ Some f }
{
    if bytes.len() > MOST_BYTES {
        return Err(JudgeFault::Fault(ProblemFault::TooLong));
    }
    let table = read(alloc, bytes)?;
    of_table(alloc, &table)
}

fn of_table(alloc: Global, table: &Table) -> Result<Problem, JudgeFault>
    ensures clean { IfOk result (λ _. fault_in (table_view table.now) ≡ None) }
    ensures keys { IfOk result (HasKeys (table_view table.now)) }
    ensures refused { (f : _) → IsErrOf result (JudgeFault.Fault f) → fault_in (table_view table.now) ≡ Some f }
{
    if let Some(fault) = key_fault(alloc, table)? {
        return Err(JudgeFault::Fault(fault));
    }
    of_entries(alloc, Entries::read(alloc, table)?)
}

fn key_fault(alloc: Global, table: &Table) -> Result<Option<ProblemFault>, AllocError>
    ensures { IfOk result (λ fault. fault ≡ option_or (unknown_key (table_view table.now)) (missing_key (table_view table.now))) }
{
    let unknown = unknown_key(alloc, table)?;
    Ok(unknown.or(missing_key(table)))
}

fn of_entries(alloc: Global, entries: Entries) -> Result<Problem, JudgeFault>
    requires { FitsBasics entries.basics entries.overlay }
    ensures clean { OnOk result (entry_fault entries ≡ None) }
    ensures values { IfOk result (IsOfEntries entries) }
    ensures refused { (f : _) → IsErrOf result (JudgeFault.Fault f) → entry_fault entries ≡ Some f }
{
    if let Some(fault) = entry_fault(&entries) {
        return Err(JudgeFault::Fault(fault));
    }
    Ok(problem(alloc, entries)?)
}

fn entry_fault(entries: &Entries) -> Option<ProblemFault>
    ensures first { result ≡ entry_fault entries.now }
    ensures clean { result ≡ None → IsClean entries.now }
{
    match out_of_range(entries) {
        Some(fault) => Some(fault),
        None => in_range_fault(entries),
    }
}

fn in_range_fault(entries: &Entries) -> Option<ProblemFault>
    requires cx { unsigned_abs entries.now.basics.cx ≤ 1024 }
    requires cy { unsigned_abs entries.now.basics.cy ≤ 1024 }
    requires overlay { IsOverlayInRange entries.now.overlay }
    ensures { result ≡ in_range_fault entries.now }
{
    let basics = &entries.basics;
    let overlay = &entries.overlay;
    courant_fault(basics, overlay)
        .or(sides_differ(basics.x_low, basics.x_high, basics.y_low, basics.y_high))
        .or(block_outside(basics.nx, basics.ny, overlay.blocks.as_slice()))
        .or(tag_count(basics.max_level, entries.refining.tag.as_slice()))
        .or(blocking_misfit(basics.nx, basics.ny, overlay.blocking))
        .or(species_outside(overlay.species, overlay.blocks.as_slice()))
}

fn courant_fault(basics: &Basics, overlay: &Overlay) -> Option<ProblemFault>
    requires cx { unsigned_abs basics.now.cx ≤ 1024 }
    requires cy { unsigned_abs basics.now.cy ≤ 1024 }
    requires overlay { IsOverlayInRange overlay.now }
    ensures { result ≡ courant_over (basics.now.cx ∷ basics.now.cy ∷ basics.now.d ∷ []) overlay.now.shear_x.items overlay.now.shear_y.items }
{
    let x_size = size_in_use(basics.cx, overlay.shear_x.as_slice());
    let y_size = size_in_use(basics.cy, overlay.shear_y.as_slice());
    courant_over(x_size, y_size, basics.d)
}
