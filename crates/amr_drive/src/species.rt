//! The problem of a species alone.

ghost use Rattle.std.specs.Prelude.{◌≡◌, [], ◌∷◌, ◌++◌, IfOk, OnOk};
ghost use Rattle.amr_def.specs.OneSpecies.{blocks_of, sides_of};
ghost use Rattle.amr_def.specs.Species.{of_species};

use amr_causes::NoMemory;
use amr_def::{Block, Blocks, Name, Problem, Shear, Sides, Thresholds};
use std::alloc::Global;

/// The sides of an axis for a species: inflows are of species 0.
#[tactic(auto, using(crate::proofs::SpeciesParts::first_sides, crate::proofs::SpeciesParts::later_sides))]
fn sides_of(sides: Sides, k: u32) -> Sides
    ensures { result ≡ sides_of k sides }
{
    if k == 0 {
        return sides;
    }
    match sides {
        Sides::Periodic => Sides::Periodic,
        Sides::Open(_, _) => Sides::Open(0, 0),
    }
}

/// A block is added where it is of the species, as one of the only species.
#[tactic(auto, using(crate::proofs::SpeciesParts::own_block, crate::proofs::SpeciesParts::other_block))]
fn push_own(own: &mut Vec<Block>, block: &Block, k: u32) -> Result<(), NoMemory>
    ensures { OnOk result (own.new.items ≡ own.old.items ++ blocks_of k (block.now ∷ [])) }
{
    if block.species == k {
        own.push(alone(block))?;
    }
    Ok(())
}

/// The blocks of a species, as those of the only one.
#[tactic(auto, using(crate::proofs::SpeciesParts::blocks_more))]
fn blocks_of(alloc: Global, blocks: &[Block], k: u32) -> Result<Vec<Block>, NoMemory>
    ensures { IfOk result (λ v. v.items ≡ blocks_of k blocks.now) }
{
    let mut own = Vec::new(alloc);
    for block in blocks {
        push_own(&mut own, block, k)?;
    }
    Ok(own)
}

/// A block as of the only species.
fn alone(block: &Block) -> Block
    ensures { result ≡ record block.now { species = 0 } }
{
    Block {
        x0: block.x0,
        y0: block.y0,
        x1: block.x1,
        y1: block.y1,
        mass: block.mass,
        species: 0,
    }
}

fn copied_name(alloc: Global, name: &Name) -> Result<Name, NoMemory>
    ensures { IfOk result (λ n. n ≡ name.now) }
{
    Ok(Name::make(Vec::from_slice(alloc, name.bytes())?))
}

fn copied_shear(alloc: Global, shear: &Shear) -> Result<Shear, NoMemory>
    ensures { IfOk result (λ s. s ≡ shear.now) }
{
    Ok(Shear::make(Vec::from_slice(alloc, shear.entries())?))
}

fn copied_tag(alloc: Global, tag: &Thresholds) -> Result<Thresholds, NoMemory>
    ensures { IfOk result (λ t. t ≡ tag.now) }
{
    Ok(Thresholds::make(Vec::from_slice(alloc, tag.entries())?))
}

fn own_blocks(alloc: Global, blocks: &Blocks, k: u32) -> Result<Blocks, NoMemory>
    ensures { IfOk result (λ b. b ≡ blocks_of k blocks.now) }
{
    Ok(Blocks::make(blocks_of(alloc, blocks.entries(), k)?))
}

/// The problem of species `k` of a problem, as a problem of one species.
pub(crate) fn of_species(alloc: Global, p: &Problem, k: u32) -> Result<Problem, NoMemory>
    ensures { IfOk result (λ own. own ≡ of_species p.now k) }
{
    let name = copied_name(alloc, &p.name)?;
    let shear_x = copied_shear(alloc, &p.shear_x)?;
    let shear_y = copied_shear(alloc, &p.shear_y)?;
    let tag = copied_tag(alloc, &p.tag)?;
    let blocks = own_blocks(alloc, &p.blocks, k)?;
    let x_sides = sides_of(p.x_sides, k);
    let y_sides = sides_of(p.y_sides, k);
    Ok(Problem {
        version: p.version,
        name,
        nx: p.nx,
        ny: p.ny,
        steps: p.steps,
        cx: p.cx,
        cy: p.cy,
        d: p.d,
        shear_x,
        shear_y,
        x_sides,
        y_sides,
        max_level: p.max_level,
        tag,
        n_error_buf: p.n_error_buf,
        efficiency: p.efficiency,
        min_width: p.min_width,
        regrid_int: p.regrid_int,
        blocking: p.blocking,
        max_grid_size: p.max_grid_size,
        blocks,
        species: 1,
    })
}
