//! The step, and the rows of the ledger.

ghost use Rattle.std.specs.Prelude.{◌≡◌, ◌+◌, ◌-◌, ◌^◌, ◌<◌, ◌≤◌, false, length, IfOk, IfErr, OnOk};
ghost use Rattle.amr_codec.specs.Forms.{IsBasisOf, basis_of};
ghost use Rattle.amr_patch.specs.Meshes.{is_spent, state_of};
ghost use Rattle.amr_payload.specs.Tests.{has_no_flows, is_row_after, read, read_first_row, read_joined, read_ledger, read_row};
ghost use Rattle.amr_payload.specs.Tests.{read_row_after, read_rows, read_rows_after, read_step};
ghost use Rattle.amr_decoder.specs.Faults.{IsFaultOf};
ghost use Rattle.amr_decoder.specs.Lefts.{left_of};

use crate::faults::CodecFault;
use crate::reader::Reader;
use amr_causes::NoMemory;
use amr_codec::Basis;
use amr_def::{Problem, Row};
use amr_patch::Mesh;
use std::alloc::Global;

/// The step, which is one of the problem, and at least `before`, the number of rows of the ledger that stand already.
#[tactic(auto, unfolding(amr_payload::specs::Tests::read_step))]
pub fn read_step(p: &Problem, before: u32, reader: &mut Reader<'_>) -> Result<u32, CodecFault>
    ensures read { IfOk result (λ n. read_step p.now before (left_of reader.old) ≡ read n (left_of reader.new)) }
    ensures bad { IfErr result (IsFaultOf (read_step p.now before (left_of reader.old))) }
    ensures within { IfOk result (λ n. n ≤ p.now.steps) }
    ensures after { IfOk result (λ n. before ≤ n) }
{
    let place = reader.place() as u64;
    let step = reader.read_u32()?;
    if before <= step && step <= p.steps {
        Ok(step)
    } else {
        Err(CodecFault::Bad { place })
    }
}

#[tactic(auto, unfolding(amr_payload::specs::Tests::read_row))]
fn read_row(reader: &mut Reader<'_>) -> Result<Row, CodecFault>
    ensures read { IfOk result (λ v. read_row (left_of reader.old) ≡ read v (left_of reader.new)) }
    ensures bad { IfErr result (IsFaultOf (read_row (left_of reader.old))) }
{
    let mass = reader.read_u64()?;
    let inflow = reader.read_u64()?;
    let outflow = reader.read_u64()?;
    Ok(Row {
        mass,
        inflow,
        outflow,
    })
}

fn has_no_flows(row: Row) -> bool
    ensures { result ≡ has_no_flows row }
{
    row.inflow == 0 && row.outflow == 0
}

/// Whether the mass changes by what flowed in and out.
fn is_row_after(before: Row, row: Row) -> bool
    ensures { result ≡ is_row_after before row }
{
    u128::from(row.mass) + u128::from(row.outflow)
        == u128::from(before.mass) + u128::from(row.inflow)
}

/// Row 0, which has no flows.
#[tactic(auto, unfolding(amr_payload::specs::Tests::read_first_row))]
fn read_first_row(reader: &mut Reader<'_>) -> Result<Row, CodecFault>
    ensures read { IfOk result (λ v. read_first_row (left_of reader.old) ≡ read v (left_of reader.new)) }
    ensures bad { IfErr result (IsFaultOf (read_first_row (left_of reader.old))) }
{
    let place = reader.place() as u64;
    let row = read_row(reader)?;
    if has_no_flows(row) {
        Ok(row)
    } else {
        Err(CodecFault::Bad { place })
    }
}

#[tactic(auto, unfolding(amr_payload::specs::Tests::read_row_after))]
fn read_row_after(before: Row, reader: &mut Reader<'_>) -> Result<Row, CodecFault>
    ensures read { IfOk result (λ v. read_row_after before (left_of reader.old) ≡ read v (left_of reader.new)) }
    ensures bad { IfErr result (IsFaultOf (read_row_after before (left_of reader.old))) }
{
    let place = reader.place() as u64;
    let row = read_row(reader)?;
    if is_row_after(before, row) {
        Ok(row)
    } else {
        Err(CodecFault::Bad { place })
    }
}

/// `count` rows after one, each of which has the mass of the row before and its net inflow. Memory is taken as they are read.
fn read_rows_after(
    before: Row,
    count: u32,
    rows: &mut Vec<Row>,
    reader: &mut Reader<'_>,
) -> Result<(), CodecFault>
    ensures read { OnOk result (read_joined rows.old.items (read_rows_after count before (left_of reader.old)) ≡ read rows.new.items (left_of reader.new)) }
    ensures bad { IfErr result (IsFaultOf (read_joined rows.old.items (read_rows_after count before (left_of reader.old)))) }
{
    let mut last = before;
    for _k in 0..count {
        last = read_row_after(last, reader)?;
        rows.push(last)?;
    }
    Ok(())
}

/// Row 0 of the ledger, which has no flows, and `count` more.
#[tactic(auto, unfolding(amr_payload::specs::Tests::read_rows))]
fn read_rows(alloc: Global, count: u32, reader: &mut Reader<'_>) -> Result<Vec<Row>, CodecFault>
    ensures read { IfOk result (λ rows. read_rows count (left_of reader.old) ≡ read rows.items (left_of reader.new)) }
    ensures bad { IfErr result (IsFaultOf (read_rows count (left_of reader.old))) }
{
    let first = read_first_row(reader)?;
    let mut rows = vec![in alloc; first]?;
    read_rows_after(first, count, &mut rows, reader)?;
    Ok(rows)
}

/// The rows of the ledger of a mesh, `count` of them.
fn copied_rows(alloc: Global, mesh: &Mesh, count: u32) -> Result<Vec<Row>, NoMemory>
    requires whole { is_spent mesh.now ≡ false }
    requires count { length (state_of mesh.now).rows ≡ count }
    ensures { IfOk result (λ rows. rows.items ≡ (state_of mesh.now).rows) }
{
    let mut rows = Vec::with_capacity(alloc, count as usize)?;
    for k in 0..count {
        rows.push(mesh.row(k))?;
    }
    Ok(rows)
}

/// The rows of the ledger after those of an older state, with these before them.
fn read_later_rows(
    alloc: Global,
    old: &Mesh,
    step: u32,
    reader: &mut Reader<'_>,
) -> Result<Vec<Row>, CodecFault>
    requires whole { is_spent old.now ≡ false }
    requires count { length (state_of old.now).rows ≡ (state_of old.now).step + 1 }
    requires after { (state_of old.now).step < step }
    requires step { step < 2 ^ 32 - 1 }
    ensures read { IfOk result (λ rows. read_ledger (state_of old.now).rows step (left_of reader.old) ≡ read rows.items (left_of reader.new)) }
    ensures bad { IfErr result (IsFaultOf (read_ledger (state_of old.now).rows step (left_of reader.old))) }
{
    let last = old.step();
    let mut rows = copied_rows(alloc, old, last + 1)?;
    read_rows_after(old.row(last), step - last, &mut rows, reader)?;
    Ok(rows)
}

/// The rows of the ledger up to that of the step: those that stand already, and those after them. Row 0 has no flows, and each
/// other has the mass of the row before and its net inflow. Memory is taken as they are read.
pub fn read_ledger(
    alloc: Global,
    p: &Problem,
    basis: &Basis<'_>,
    step: u32,
    reader: &mut Reader<'_>,
) -> Result<Vec<Row>, CodecFault>
    requires basis { IsBasisOf p.now basis.now }
    requires step { step ≤ 4096 }
    requires after { length (basis_of basis.now).rows ≤ step }
    ensures read { IfOk result (λ rows. read_ledger (basis_of basis.now).rows step (left_of reader.old) ≡ read rows.items (left_of reader.new)) }
    ensures bad { IfErr result (IsFaultOf (read_ledger (basis_of basis.now).rows step (left_of reader.old))) }
{
    match basis {
        Basis::Alone(_) => read_rows(alloc, step, reader),
        Basis::Older(mesh) => read_later_rows(alloc, mesh, step, reader),
    }
}
