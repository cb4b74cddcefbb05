//! The text of a trial's problem.

ghost use Rattle.std.specs.Prelude.{◌≡◌, ◌+◌, ◌++◌, IfOk, OnOk};
ghost use Rattle.amr_trial.specs.Generator.{after};
ghost use Rattle.amr_trial.specs.Trial.{IsSize, block_from, block_text, text};
ghost use Rattle.amr_trial.specs.Parts.{blocks_line, head, more_blocks};

use crate::Generator;
use crate::fragments::put;
use amr_causes::NoMemory;
use amr_def::Block;
use amr_io::Fragment;
use std::alloc::Global;

/// More than the longest text of a trial.
const ROOM: usize = 512;

/// Draws a block in a domain of `size` by `size` cells.
#[tactic(auto, unfolding(crate::specs::Trial::block_from))]
fn draw_block(generator: &mut Generator, size: u32) -> Block
    requires { IsSize size }
    ensures state { generator.new ≡ after 5 generator.old }
    ensures block { result ≡ block_from size generator.old }
{
    let x0 = generator.draw(size);
    let y0 = generator.draw(size);
    let width = generator.draw(size / 4);
    let height = generator.draw(size / 4);
    let mass = generator.draw(4096);
    Block {
        x0,
        y0,
        x1: (x0 + width).min(size - 1),
        y1: (y0 + height).min(size - 1),
        mass: u64::from(mass),
        species: 0,
    }
}

fn put_block(block: &Block, out: &mut Vec<u8>) -> Result<(), NoMemory>
    ensures { OnOk result (out.new.items ≡ out.old.items ++ block_text block.now) }
{
    put(
        &[
            Fragment::Str("["),
            Fragment::Number(u64::from(block.x0)),
            Fragment::Str(", "),
            Fragment::Number(u64::from(block.y0)),
            Fragment::Str(", "),
            Fragment::Number(u64::from(block.x1)),
            Fragment::Str(", "),
            Fragment::Number(u64::from(block.y1)),
            Fragment::Str(", "),
            Fragment::Number(block.mass),
            Fragment::Str("]"),
        ],
        out,
    )
}

/// Draws and writes seven more blocks, each behind a comma.
fn put_more_blocks(generator: &mut Generator, size: u32, out: &mut Vec<u8>) -> Result<(), NoMemory>
    requires { IsSize size }
    ensures { OnOk result (out.new.items ≡ out.old.items ++ more_blocks 7 size generator.old) }
{
    for _k in 0..7u32 {
        let block = draw_block(generator, size);
        put(&[Fragment::Str(", ")], out)?;
        put_block(&block, out)?;
    }
    Ok(())
}

/// Draws and writes the eight blocks, with the key before them.
#[tactic(auto, unfolding(crate::specs::Parts::blocks_line))]
fn put_blocks(generator: &mut Generator, size: u32, out: &mut Vec<u8>) -> Result<(), NoMemory>
    requires { IsSize size }
    ensures { OnOk result (out.new.items ≡ out.old.items ++ blocks_line size generator.old) }
{
    put(&[Fragment::Str("blocks = [")], out)?;
    let first = draw_block(generator, size);
    put_block(&first, out)?;
    put_more_blocks(generator, size, out)?;
    put(&[Fragment::Str("]\n")], out)
}

/// Writes the lines before that of the blocks.
fn put_head(number: u32, size: u32, cx: u32, cy: u32, out: &mut Vec<u8>) -> Result<(), NoMemory>
    ensures { OnOk result (out.new.items ≡ out.old.items ++ head number size cx cy) }
{
    let size = u64::from(size);
    put(
        &[
            Fragment::Str("version = 1\nname = \"trial-"),
            Fragment::Number(u64::from(number)),
            Fragment::Str("-"),
            Fragment::Number(size),
            Fragment::Str("\"\ncells = ["),
            Fragment::Number(size),
            Fragment::Str(", "),
            Fragment::Number(size),
            Fragment::Str("]\nsteps = 16\ncourant = ["),
            Fragment::Number(u64::from(cx)),
            Fragment::Str(", "),
            Fragment::Number(u64::from(cy)),
            Fragment::Str(
                ", 8]\nsides = [-1, -1, 0, 0]\nmax_level = 2\ntag = [64, 16]\nmax_grid_size = 16\n",
            ),
        ],
        out,
    )
}

/// The text of the problem of a trial, whose `size` is 8 to 256. It is a problem file of `size` by `size` cells, three
/// levels and 16 steps, with Courant numbers and eight blocks that its `number` draws. Memory for the whole is taken
/// first.
pub fn text(alloc: Global, number: u32, size: u32) -> Result<Vec<u8>, NoMemory>
    requires { IsSize size }
    ensures { IfOk result (λ bytes. bytes.items ≡ text number size) }
{
    let mut generator = Generator::of_trial(number);
    let cx = generator.draw(5);
    let cy = generator.draw(4);
    let mut out = Vec::with_capacity(alloc, ROOM)?;
    put_head(number, size, cx, cy, &mut out)?;
    put_blocks(&mut generator, size, &mut out)?;
    Ok(out)
}
