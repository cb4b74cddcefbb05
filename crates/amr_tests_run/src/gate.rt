//! The gate of the program's tasks: two workers take part.

ghost use Rattle.std.specs.Prelude.{ℕ, ◌<◌};

use crate::batch::{batch_of, replies};
use crate::cases::ring_with;
use crate::worked::{NINE_COLUMNS, NINE_COLUMNS_PLOT};
use amr_cli::Line;
use amr_disk::MemDisk;
use amr_io::{MemSink, MemSource};
use amr_run::amr_gated;
use amr_samples::Turnstile;
use amr_workers::Gate;
use std::alloc::Global;
use std::process::Abort;
use std::sync::Wait;
use std::test::Fail;
use std::thread::Threads;

/// The ring of nine columns in three patches, as text: two steps.
fn nine_columns(alloc: Global) -> Result<String, Fail> {
    let lines = format!(in alloc; "{NINE_COLUMNS};max_grid_size = 4")?;
    ring_with(alloc, lines.as_str())
}

/// A command whose tasks pass this gate answers so, with so many workers.
fn answers<R: Abort + Alloc<A = Global> + Threads + Wait + Sync, G: Gate + Sync>(
    rt: &R,
    words: [&str; 3],
    bytes: &[u8],
    answer: &[u8],
    gate: &G,
) -> Result<(), Fail>
    requires { (worker task : ℕ) → worker < 64 → G.admits gate.now worker task }
{
    let alloc = rt.alloc();
    let mut line = Line::make(alloc);
    for word in words {
        line.push(word)?;
    }
    let mut src = MemSource::make(alloc, bytes, 1000, &[]).expect(rt, "memory");
    let mut out = MemSink::make(alloc, 10_000, 16, &[]).expect(rt, "memory");
    let mut lines = MemSink::make(alloc, 1000, 40, &[]).expect(rt, "memory");
    let mut disk = MemDisk::make(alloc, &[], 0, 0, &[], Some(1)).expect(rt, "memory");
    let ended = amr_gated(
        rt, alloc, &line, &mut src, &mut out, &mut lines, &mut disk, gate,
    );
    assert_eq!(rt; ended.code(), 0);
    assert_eq!(rt; out.bytes(), answer);
    Ok(())
}

/// A task is held until another is done: so a second worker takes part in the steps of the program.
#[test]
fn second_task_first(rt: HostRuntime) -> Result<(), Fail> {
    let text = nine_columns(rt.alloc())?;
    let gate = Turnstile::new();
    let words = ["run", "--workers", "2"];
    answers(
        &rt,
        words,
        text.as_bytes(),
        NINE_COLUMNS_PLOT.as_bytes(),
        &gate,
    )?;
    assert!(rt; gate.has_held());
    Ok(())
}

/// Two species on a ring: 8 of the first in cell (0, 0), 7 of the second in cell (1, 0).
const TWO_SPECIES: &str =
    "version = 3;species = 2;blocks = [[0, 0, 0, 0, 8, 0], [1, 0, 1, 0, 7, 1]]";

const TWO_SPECIES_PLOT: &str = "amr-plot 2
name ring
step 1
ledger 0 0 8 0 0
ledger 0 1 7 0 0
ledger 1 0 8 0 0
ledger 1 1 7 0 0
level 0 1
box 0 0 3 1
species 0
4 4 0 0
0 0 0 0
species 1
0 4 3 0
0 0 0 0
end
";

/// The same of the steps of two species: so these go side by side, by one worker each.
#[test]
fn second_species_first(rt: HostRuntime) -> Result<(), Fail> {
    let text = ring_with(rt.alloc(), TWO_SPECIES)?;
    let gate = Turnstile::new();
    let words = ["run", "--workers", "2"];
    answers(
        &rt,
        words,
        text.as_bytes(),
        TWO_SPECIES_PLOT.as_bytes(),
        &gate,
    )?;
    assert!(rt; gate.has_held());
    Ok(())
}

/// The same of the tasks of two jobs: so these are solved side by side, by one worker each.
#[test]
fn second_job_first(rt: HostRuntime) -> Result<(), Fail> {
    let alloc = rt.alloc();
    let text = nine_columns(alloc)?;
    let batch = batch_of(alloc, &[text.as_str(), text.as_str()])?;
    let answer = replies(alloc, &[(0, NINE_COLUMNS_PLOT), (0, NINE_COLUMNS_PLOT)])?;
    let gate = Turnstile::new();
    let words = ["batch", "--workers", "2"];
    answers(&rt, words, batch.as_bytes(), answer.as_bytes(), &gate)?;
    assert!(rt; gate.has_held());
    Ok(())
}
