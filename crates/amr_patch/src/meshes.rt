//! A mesh: the step, the rows of the ledger and the levels.

ghost use Rattle.std.specs.Prelude.{◌≡◌, ◌<◌, true, false, map, length, slice_get, Some, IfOk};
ghost use Rattle.amr_patch.specs.Levels.{IsLevelCopy, level_of};
ghost use Rattle.amr_patch.specs.Meshes.{is_spent, levels_of, state_of};
ghost use Rattle.amr_patch.specs.Pairwise.{Pairwise};

use crate::level_copies::copied_levels;
use crate::levels::Level;
use amr_causes::NoMemory;
use amr_def::Row;

/// A state, in levels: the step, the rows of the ledger up to it, and the levels from the coarsest on. Contracts see it as a
/// state of the definitions, by `state_of`. Once its rows and levels are taken it is spent, and only dropped.
#[derive(Drop)]
pub struct Mesh {
    step: u32,
    rows: Vec<Row>,
    levels: Vec<Level>,
    spent: bool,
}

#[tactic(auto, unfolding(crate::specs::Meshes::state_of, crate::specs::Meshes::levels_of, crate::specs::Meshes::is_spent))]
impl Mesh {
    /// The mesh with this step, these rows and these levels.
    pub fn of(step: u32, rows: Vec<Row>, levels: Vec<Level>) -> Mesh
        ensures state { state_of result ≡ record { step = step; rows = rows.items; levels = map level_of levels.items } }
        ensures levels { levels_of result ≡ levels.items }
        ensures whole { is_spent result ≡ false }
    {
        Mesh {
            step,
            rows,
            levels,
            spent: false,
        }
    }

    /// The step.
    pub fn step(&self) -> u32
        requires { is_spent self.now ≡ false }
        ensures { result ≡ (state_of self.now).step }
    {
        self.step
    }

    /// The row of the ledger after step `k`.
    pub fn row(&self, k: u32) -> Row
        requires whole { is_spent self.now ≡ false }
        requires inside { k < length (state_of self.now).rows }
        ensures { slice_get (state_of self.now).rows k ≡ Some result }
    {
        self.rows[k as usize]
    }

    /// The levels, from the coarsest on.
    pub fn levels(&self) -> &[Level]
        requires { is_spent self.now ≡ false }
        ensures all { result.now ≡ levels_of self.now }
        ensures levels { map level_of result.now ≡ (state_of self.now).levels }
    {
        self.levels.as_slice()
    }

    /// Takes the rows and the levels out. The mesh is then spent.
    pub fn take(&mut self) -> (Vec<Row>, Vec<Level>)
        requires { is_spent self.old ≡ false }
        ensures rows { result.0.items ≡ (state_of self.old).rows }
        ensures all { result.1.items ≡ levels_of self.old }
        ensures levels { map level_of result.1.items ≡ (state_of self.old).levels }
        ensures spent { is_spent self.new ≡ true }
    {
        let no_rows = Vec::new(*self.rows.allocator());
        let no_levels = Vec::new(*self.rows.allocator());
        self.spent = true;
        let rows = std::mem::replace(&mut self.rows, no_rows);
        let levels = std::mem::replace(&mut self.levels, no_levels);
        (rows, levels)
    }

    /// A mesh with the same state, in patches with the same boxes, frames and marks. Its fluxes are 0. Memory is taken for rows,
    /// levels and patches.
    pub fn copy(&self) -> Result<Mesh, NoMemory>
        requires { is_spent self.now ≡ false }
        ensures state { IfOk result (λ m. state_of m ≡ state_of self.now) }
        ensures levels { IfOk result (λ m. Pairwise IsLevelCopy (levels_of self.now) (levels_of m)) }
        ensures whole { IfOk result (λ m. is_spent m ≡ false) }
    {
        let alloc = *self.rows.allocator();
        let levels = copied_levels(alloc, &self.levels)?;
        let rows = Vec::from_slice(alloc, &self.rows)?;
        Ok(Mesh::of(self.step, rows, levels))
    }

    /// Whether the rows and the levels are taken.
    pub fn spent(&self) -> bool
        ensures { result ≡ is_spent self.now }
    {
        self.spent
    }
}
