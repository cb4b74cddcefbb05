//! What the state that is put last is kept in, for the record that follows it. Where the boxes stay its masses are exchanged in
//! place, in a mesh of an older state.
ghost use Rattle.std.specs.Prelude.{◌≡◌, ◌+◌, false, length, map, nat_lt, IfOk, IsTrue, Some};
ghost use Rattle.amr_def.specs.Facts.{IsSound};
ghost use Rattle.amr_patch.specs.Levels.{level_of};
ghost use Rattle.amr_patch.specs.Meshes.{is_spent, levels_of, state_of};
ghost use Rattle.amr_checkpoint.specs.Checkpoints.{IsCopyWhere};
ghost use Rattle.amr_checkpoint.specs.Exchanges.{FitsPlace, IsOnSameBoxes, is_kept, shape_of};

use crate::checkpoint::KeptStore;
use amr_alike::{are_same, copy_masses, have_same_boxes};
use amr_causes::NoMemory;
use amr_def::Problem;
use amr_patch::{Level, Mesh, Row};
use amr_store::Store;
use std::alloc::Global;

/// What a state is kept in once it is put. All memory for it is taken.
#[derive(Drop)]
pub(crate) enum Place {
    /// Nothing.
    Nowhere,
    /// A copy of the mesh.
    Copy(Mesh),
    /// The mesh of an older state on the same boxes, with these rows of the ledger.
    Older(Vec<Row>),
}

/// Whether two levels have the same boxes and their patches too, each in the same order.
fn is_alike(a: &Level, b: &Level) -> bool
    ensures { IsTrue result → shape_of a.now ≡ shape_of b.now }
{
    if are_same(a.boxes(), b.boxes()) {
        have_same_boxes(a.patches(), b.patches())
    } else {
        false
    }
}

/// Whether levels are so, one by one.
fn are_alike(a: &[Level], b: &[Level]) -> bool
    ensures { IsTrue result → map shape_of a.now ≡ map shape_of b.now }
{
    if a.len() != b.len() {
        return false;
    }
    for k in 0..a.len() {
        if !is_alike(&a[k], &b[k]) {
            return false;
        }
    }
    true
}

/// Whether a mesh is not spent, and on the boxes of another one.
fn is_on_same_boxes(old: &Mesh, mesh: &Mesh) -> bool
    requires { is_spent mesh.now ≡ false }
    ensures { IsTrue result → IsOnSameBoxes old.now mesh.now }
{
    if old.spent() {
        return false;
    }
    are_alike(old.levels(), mesh.levels())
}

/// The rows of the ledger of a mesh.
fn rows_of(alloc: Global, p: &Problem, mesh: &Mesh) -> Result<Vec<Row>, NoMemory>
    requires whole { is_spent mesh.now ≡ false }
    requires sound { IsSound p.now (state_of mesh.now) }
    ensures { IfOk result (λ rows. rows.items ≡ (state_of mesh.now).rows) }
{
    let count = mesh.step() + 1;
    let mut rows = Vec::with_capacity(alloc, count as usize)?;
    for k in 0..count {
        rows.push(mesh.row(k))?;
    }
    Ok(rows)
}

/// The place of the state of a mesh, where another record follows so many of at most `most`. Out of memory is the only refusal.
pub(crate) fn place_over(
    alloc: Global,
    p: &Problem,
    chain: u32,
    most: u32,
    old: &Mesh,
    mesh: &Mesh,
) -> Result<Place, NoMemory>
    requires whole { is_spent mesh.now ≡ false }
    requires sound { IsSound p.now (state_of mesh.now) }
    ensures kept { IfOk result (λ place. is_kept place ≡ nat_lt chain most) }
    ensures fits { IfOk result (FitsPlace mesh.now (Some old.now)) }
{
    if chain >= most {
        return Ok(Place::Nowhere);
    }
    if is_on_same_boxes(old, mesh) {
        return Ok(Place::Older(rows_of(alloc, p, mesh)?));
    }
    Ok(Place::Copy(mesh.copy()?))
}

/// The same, where there may be no older state.
pub(crate) fn place_beside(
    alloc: Global,
    p: &Problem,
    chain: u32,
    most: u32,
    spare: &Option<Mesh>,
    mesh: &Mesh,
) -> Result<Place, NoMemory>
    requires whole { is_spent mesh.now ≡ false }
    requires sound { IsSound p.now (state_of mesh.now) }
    ensures kept { IfOk result (λ place. is_kept place ≡ nat_lt chain most) }
    ensures fits { IfOk result (FitsPlace mesh.now spare.now) }
{
    match spare {
        Some(old) => place_over(alloc, p, chain, most, old, mesh),
        None => {
            if chain < most {
                Ok(Place::Copy(mesh.copy()?))
            } else {
                Ok(Place::Nowhere)
            }
        }
    }
}

/// Gives levels the masses of others on the same boxes, one by one. It takes no memory.
fn copy_levels(from: &[Level], to: &mut [Level])
    requires { map shape_of to.old ≡ map shape_of from.now }
    ensures { map level_of to.new ≡ map level_of from.now }
{
    for k in 0..to.len() {
        copy_masses(&from[k], &mut to[k]);
    }
}

/// The state of a mesh, in one that an older state on the same boxes had. It takes no memory.
fn exchange(mut old: Mesh, rows: Vec<Row>, mesh: &Mesh) -> Mesh
    requires whole { is_spent mesh.now ≡ false }
    requires boxes { IsOnSameBoxes old mesh.now }
    requires rows { rows.items ≡ (state_of mesh.now).rows }
    ensures state { state_of result ≡ state_of mesh.now }
    ensures whole { is_spent result ≡ false }
{
    let (_rows, mut levels) = old.take();
    copy_levels(mesh.levels(), levels.as_mut_slice());
    Mesh::of(mesh.step(), rows, levels)
}

/// A store that the state of a mesh was put into, with that state where it is kept. What is left of an older one is spare.
pub(crate) fn kept_after(store: Store, place: Place, old: Option<Mesh>, mesh: &Mesh) -> KeptStore
    requires whole { is_spent mesh.now ≡ false }
    requires fits { FitsPlace mesh.now old place }
    ensures store { result.store ≡ store }
    ensures latest { IsCopyWhere (is_kept place) (state_of mesh.now) result.latest }
{
    match place {
        Place::Nowhere => KeptStore {
            store,
            latest: None,
            spare: old,
        },
        Place::Copy(copy) => KeptStore {
            store,
            latest: Some(copy),
            spare: None,
        },
        Place::Older(rows) => match old {
            None => unreachable!(),
            Some(old) => KeptStore {
                store,
                latest: Some(exchange(old, rows, mesh)),
                spare: None,
            },
        },
    }
}
