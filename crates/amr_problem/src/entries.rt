//! What stands at the keys of a problem, each value of its key's kind.

ghost use Rattle.std.specs.Prelude.{◌≡◌, Some, None, Ok, Err, IfOk, IsErrOf, option_map, [], ◌∷◌};
ghost use Rattle.toml.specs.View.{table_view};
ghost use Rattle.amr_problem.specs.Values.{numbers_at};
ghost use Rattle.amr_problem.specs.Faults.{first_wrong, wrong_kind};
ghost use Rattle.amr_problem.specs.Entries.{basic_keys, refining_keys, overlay_keys, AreBasicsOf, AreRefiningOf, IsOverlayOf, IsReadOf};

use crate::document::number_at;
use crate::fault::{JudgeFault, ProblemFault};
use crate::key::Key;
use crate::kinds::{blocks_at, integers_at, numbers_at, shear_at, text_at};
use std::alloc::Global;
use toml::Table;

/// The values of the keys, before any is held against its range.
#[derive(Drop)]
pub struct Entries {
    pub basics: Basics,
    pub refining: Refining,
    pub overlay: Overlay,
}

/// What every problem has to say, but for its blocks.
#[derive(Drop)]
pub struct Basics {
    pub version: i64,
    pub name: Vec<u8>,
    pub nx: i64,
    pub ny: i64,
    pub steps: i64,
    pub cx: i64,
    pub cy: i64,
    pub d: i64,
    pub x_low: i64,
    pub x_high: i64,
    pub y_low: i64,
    pub y_high: i64,
    pub max_level: i64,
}

/// How finer levels are made, and levels are held.
#[derive(Drop)]
pub struct Refining {
    pub tag: Vec<i64>,
    pub n_error_buf: i64,
    pub efficiency: i64,
    pub min_width: i64,
    pub regrid_int: i64,
    pub max_grid_size: i64,
}

/// What is laid over level 0: masses, Courant numbers by rows and by columns, the blocking, and how many species there are.
#[derive(Drop)]
pub struct Overlay {
    pub blocks: Vec<[i64; 6]>,
    pub shear_x: Vec<i64>,
    pub shear_y: Vec<i64>,
    pub blocking: i64,
    pub species: i64,
}

impl Entries {
    /// Reads every key.
    pub fn read(alloc: Global, table: &Table) -> Result<Entries, JudgeFault>
        ensures read { IfOk result (IsReadOf (table_view table.now)) }
        ensures kinds { IfOk result (λ _. wrong_kind (table_view table.now) ≡ None) }
        ensures refused { (f : _) → IsErrOf result (JudgeFault.Fault f) → wrong_kind (table_view table.now) ≡ Some f }
    {
        let basics = Basics::read(alloc, table)?;
        let refining = Refining::read(alloc, table)?;
        let overlay = Overlay::read(alloc, table, basics.nx, basics.ny)?;
        Ok(Entries {
            basics,
            refining,
            overlay,
        })
    }
}

impl Basics {
    fn read(alloc: Global, table: &Table) -> Result<Basics, JudgeFault>
        ensures read { IfOk result (AreBasicsOf (table_view table.now)) }
        ensures kinds { IfOk result (λ _. first_wrong (table_view table.now) basic_keys ≡ None) }
        ensures refused { (f : _) → IsErrOf result (JudgeFault.Fault f) → first_wrong (table_view table.now) basic_keys ≡ Some f }
    {
        let version = number_at(table, Key::Version).ok_or(ProblemFault::WrongKind(Key::Version))?;
        let name = text_at(alloc, table, Key::Name)?.ok_or(ProblemFault::WrongKind(Key::Name))?;
        let [nx, ny] = numbers_at::<2>(table, Key::Cells).ok_or(ProblemFault::WrongKind(
            Key::Cells,
        ))?;
        let steps = number_at(table, Key::Steps).ok_or(ProblemFault::WrongKind(Key::Steps))?;
        let [cx, cy, d] = numbers_at::<3>(table, Key::Courant).ok_or(ProblemFault::WrongKind(
            Key::Courant,
        ))?;
        let [x_low, x_high, y_low, y_high] = numbers_at::<4>(table, Key::Sides).ok_or(
            ProblemFault::WrongKind(Key::Sides),
        )?;
        let max_level = number_at(table, Key::MaxLevel).ok_or(ProblemFault::WrongKind(
            Key::MaxLevel,
        ))?;
        Ok(Basics {
            version,
            name,
            nx,
            ny,
            steps,
            cx,
            cy,
            d,
            x_low,
            x_high,
            y_low,
            y_high,
            max_level,
        })
    }
}

impl Refining {
    fn read(alloc: Global, table: &Table) -> Result<Refining, JudgeFault>
        ensures read { IfOk result (AreRefiningOf (table_view table.now)) }
        ensures kinds { IfOk result (λ _. first_wrong (table_view table.now) refining_keys ≡ None) }
        ensures refused { (f : _) → IsErrOf result (JudgeFault.Fault f) → first_wrong (table_view table.now) refining_keys ≡ Some f }
    {
        let tag = integers_at(alloc, table, Key::Tag)?.ok_or(ProblemFault::WrongKind(Key::Tag))?;
        let n_error_buf = number_at(table, Key::NErrorBuf).ok_or(ProblemFault::WrongKind(
            Key::NErrorBuf,
        ))?;
        let efficiency = number_at(table, Key::Efficiency).ok_or(ProblemFault::WrongKind(
            Key::Efficiency,
        ))?;
        let min_width = number_at(table, Key::MinWidth).ok_or(ProblemFault::WrongKind(
            Key::MinWidth,
        ))?;
        let regrid_int = number_at(table, Key::RegridInt).ok_or(ProblemFault::WrongKind(
            Key::RegridInt,
        ))?;
        let max_grid_size = number_at(table, Key::MaxGridSize).ok_or(ProblemFault::WrongKind(
            Key::MaxGridSize,
        ))?;
        Ok(Refining {
            tag,
            n_error_buf,
            efficiency,
            min_width,
            regrid_int,
            max_grid_size,
        })
    }
}

impl Overlay {
    // Of a level 0 of `nx` by `ny` cells.
    fn read(alloc: Global, table: &Table, nx: i64, ny: i64) -> Result<Overlay, JudgeFault>
        requires { numbers_at 2 (table_view table.now) Key.Cells ≡ Some (nx ∷ ny ∷ []) }
        ensures read { IfOk result (IsOverlayOf nx ny (table_view table.now)) }
        ensures kinds { IfOk result (λ _. first_wrong (table_view table.now) overlay_keys ≡ None) }
        ensures refused { (f : _) → IsErrOf result (JudgeFault.Fault f) → first_wrong (table_view table.now) overlay_keys ≡ Some f }
    {
        let blocks = blocks_at(alloc, table)?.ok_or(ProblemFault::WrongKind(Key::Blocks))?;
        let shear_x = shear_at(alloc, table, Key::ShearX, ny)?.ok_or(ProblemFault::WrongKind(
            Key::ShearX,
        ))?;
        let shear_y = shear_at(alloc, table, Key::ShearY, nx)?.ok_or(ProblemFault::WrongKind(
            Key::ShearY,
        ))?;
        let blocking = number_at(table, Key::Blocking).ok_or(ProblemFault::WrongKind(
            Key::Blocking,
        ))?;
        let species = number_at(table, Key::Species).ok_or(ProblemFault::WrongKind(Key::Species))?;
        Ok(Overlay {
            blocks,
            shear_x,
            shear_y,
            blocking,
            species,
        })
    }
}
