//! Worked examples: commands on the ring with other lines, and all that they write.

use crate::cases::{Case, ring_with};
use std::alloc::Global;
use std::fmt::Write as _;
use std::process::Abort;
use std::sync::Wait;
use std::test::Fail;
use std::thread::Threads;

/// The examples, parted by empty lines. The first line has the commands, parted by semicolons, the lines in the place of the ring's
/// with their keys, and the status. Then comes all that is written: to `out` where the status is 0, else to `err`.
const EXAMPLES: &str = "run;run --to 7 --workers 2|steps = 1|0
amr-plot 1
name ring
step 1
ledger 0 8 0 0
ledger 1 8 0 0
level 0 1
box 0 0 3 1
4 4 0 0
0 0 0 0
end

run --to 0|steps = 1|0
amr-plot 1
name ring
step 0
ledger 0 8 0 0
level 0 1
box 0 0 3 1
8 0 0 0
0 0 0 0
end

run|steps = 0|0
amr-plot 1
name ring
step 0
ledger 0 8 0 0
level 0 1
box 0 0 3 1
8 0 0 0
0 0 0 0
end

run|blocks = [[0, 0, 0, 0, 7]]|0
amr-plot 1
name ring
step 1
ledger 0 7 0 0
ledger 1 7 0 0
level 0 1
box 0 0 3 1
4 3 0 0
0 0 0 0
end

run|steps = 2;blocks = [[0, 0, 0, 0, 7]]|0
amr-plot 1
name ring
step 2
ledger 0 7 0 0
ledger 1 7 0 0
ledger 2 7 0 0
level 0 1
box 0 0 3 1
2 4 1 0
0 0 0 0
end

run|cells = [2, 2];courant = [2, 0, 2];sides = [0, 0, 0, 0];blocks = [[1, 0, 1, 0, 5]]|0
amr-plot 1
name ring
step 1
ledger 0 5 0 0
ledger 1 0 0 5
level 0 1
box 0 0 1 1
0 0
0 0
end

check|cells = [2, 2];courant = [2, 0, 2];sides = [0, 0, 0, 0];blocks = [[1, 0, 1, 0, 5]]|0
ok 2 2 1 0

run|cells = [2, 2];sides = [6, 0, 0, 0];blocks = []|0
amr-plot 1
name ring
step 1
ledger 0 0 0 0
ledger 1 6 6 0
level 0 1
box 0 0 1 1
3 0
3 0
end

check|courant = [1, 0, 2]|0
ok 4 2 1 0

check|courant = [2, 2, 4]|0
ok 4 2 1 0

run;run --workers 1;run --workers 3;run --workers 64|cells = [2, 2];max_level = 1;tag = [1];blocks = [[0, 0, 0, 1, 8]]|0
amr-plot 1
name ring
step 1
ledger 0 16 0 0
ledger 1 16 0 0
level 0 1
box 0 0 1 1
4 4
4 4
level 1 1
box 0 0 3 3
1 1 2 0
1 1 2 0
1 1 2 0
1 1 2 0
end

run|version = 2;courant = [0, 0, 2];shear_x = [1, -1];blocks = [[0, 0, 0, 1, 8]]|0
amr-plot 1
name ring
step 1
ledger 0 16 0 0
ledger 1 16 0 0
level 0 1
box 0 0 3 1
4 4 0 0
4 0 0 4
end

run|version = 2;courant = [0, 0, 2];shear_x = [1, -3];blocks = [[0, 0, 0, 1, 8]]|3
amr: problem: courant 3 over 2

run|version = 2;cells = [3, 2];max_level = 1;tag = [4];blocking = 4;blocks = [[1, 0, 1, 0, 7]]|3
amr: problem: blocking 4 does not fit x";

/// The ring with a mass of 7 in cell (1, 0), which differs by enough to tag it and three neighbours, as it is at step 0.
const SPOT: &str =
    "steps = 0;courant = [0, 0, 1];max_level = 1;tag = [4];n_error_buf = 0;min_width = 1;blocks = [[1, 0, 1, 0, 7]]";

/// Further lines of the spot, and its level 1: all of three boxes is tagged, or two thirds of one, or as blocks the whole ring.
const SPOTS: &str = "efficiency = 100
level 1 3
box 0 0 1 1
0 0
0 0
box 2 0 3 3
2 2
2 1
0 0
0 0
box 4 0 5 1
0 0
0 0

efficiency = 60
level 1 1
box 0 0 5 3
0 0 2 2 0 0
0 0 2 1 0 0
0 0 0 0 0 0
0 0 0 0 0 0

efficiency = 100;version = 2;blocking = 4
level 1 1
box 0 0 7 3
0 0 2 2 0 0 0 0
0 0 2 1 0 0 0 0
0 0 0 0 0 0 0 0
0 0 0 0 0 0 0 0";

/// The commands of an example write what they should.
fn shows<R: Abort + Alloc<A = Global> + Threads + Wait + Sync>(
    rt: &R,
    example: &str,
) -> Result<(), Fail> {
    let (head, told) = example.split_once('\n').expect(rt, "a head");
    let (commands, rest) = head.split_once('|').expect(rt, "commands");
    let (lines, status) = rest.split_once('|').expect(rt, "lines");
    let text = ring_with(rt.alloc(), lines)?;
    let told = format!(in rt.alloc(); "{told}\n")?;
    for words in commands.split(';') {
        let case = Case::of(words, text.as_bytes());
        if status == "0" {
            case.ends(rt, 0, told.as_str(), "");
        } else {
            case.ends(rt, 3, "", told.as_str());
        }
    }
    Ok(())
}

#[test]
fn commands_write_the_worked_bytes(rt: HostRuntime) -> Result<(), Fail> {
    for example in EXAMPLES.split("\n\n") {
        shows(&rt, example)?;
    }
    Ok(())
}

#[test]
fn boxes_round_a_spot(rt: HostRuntime) -> Result<(), Fail> {
    for spot in SPOTS.split("\n\n") {
        let (lines, finer) = spot.split_once('\n').expect(&rt, "lines");
        let example = format!(in rt.alloc();
            "run|{SPOT};{lines}|0\namr-plot 1\nname ring\nstep 0\nledger 0 7 0 0\nlevel 0 1\nbox 0 0 3 1\n0 7 0 0\n0 0 0 0\n{finer}\nend"
        )?;
        shows(&rt, example.as_str())?;
    }
    Ok(())
}

/// The rows of a level of `n` by `n` cells with a mass in each cell of the low half of its columns.
fn half_filled(alloc: Global, level: u32, n: u32, mass: u32) -> Result<String, Fail> {
    let mut row = String::new(alloc);
    for x in 0..n {
        let value = if x < n / 2 { mass } else { 0 };
        let gap = if x == 0 { "" } else { " " };
        write!(row, "{gap}{value}")?;
    }
    let last = n.saturating_sub(1);
    let mut text = format!(in alloc; "level {level} 1\nbox 0 0 {last} {last}\n")?;
    for _ in 0..n {
        write!(text, "{row}\n")?;
    }
    Ok(text)
}

/// A column on 2 by 2 cells, refined so many times: each level is one box, and a cell has a quarter of its
/// parent's mass.
fn refined(alloc: Global, levels: u32, lines: &str, mass: u32) -> Result<String, Fail> {
    let whole = mass.saturating_mul(2);
    let mut example = format!(in alloc;
        "run|cells = [2, 2];steps = 0;courant = [0, 0, 1];max_level = {levels};blocks = [[0, 0, 0, 1, {mass}]];{lines}|0\n"
    )?;
    write!(
        example,
        "amr-plot 1\nname ring\nstep 0\nledger 0 {whole} 0 0\n"
    )?;
    let mut share = mass;
    for (level, n) in [(0u32, 2), (1, 4), (2, 8), (3, 16), (4, 32)] {
        if level <= levels {
            let rows = half_filled(alloc, level, n, share)?;
            example.push_str(rows.as_str())?;
            share /= 4;
        }
    }
    example.push_str("end")?;
    Ok(example)
}

#[test]
fn a_column_refined_twice_and_four_times(rt: HostRuntime) -> Result<(), Fail> {
    let twice = refined(rt.alloc(), 2, "tag = [1, 1];n_error_buf = 0", 64)?;
    shows(&rt, twice.as_str())?;
    let often = refined(rt.alloc(), 4, "tag = [1, 1, 1, 1];n_error_buf = 4", 1024)?;
    shows(&rt, often.as_str())
}

/// A block of mass 8 that moves a cell a step, past the end of the axis.
pub(crate) const NINE_COLUMNS: &str =
    "cells = [9, 3];courant = [1, 0, 1];steps = 2;blocks = [[8, 0, 8, 0, 8]]";

pub(crate) const NINE_COLUMNS_PLOT: &str = "amr-plot 1
name ring
step 2
ledger 0 8 0 0
ledger 1 8 0 0
ledger 2 8 0 0
level 0 1
box 0 0 8 2
0 8 0 0 0 0 0 0 0
0 0 0 0 0 0 0 0 0
0 0 0 0 0 0 0 0 0
end
";

/// Nine columns in three patches, and in one, by any number of workers: neither leaves a trace in the plot.
#[test]
fn nine_columns_by_patches_and_workers(rt: HostRuntime) -> Result<(), Fail> {
    for size in [4, 32] {
        let lines = format!(in rt.alloc(); "{NINE_COLUMNS};max_grid_size = {size}")?;
        let text = ring_with(rt.alloc(), lines.as_str())?;
        for words in "run;run --workers 1;run --workers 3;run --workers 64".split(';') {
            Case::of(words, text.as_bytes()).ends(&rt, 0, NINE_COLUMNS_PLOT, "");
        }
    }
    Ok(())
}
