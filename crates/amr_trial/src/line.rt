//! The line that a trial prints.

ghost use Rattle.std.specs.Prelude.{◌≡◌, ◌<◌, ◌^◌, false, IfOk};
ghost use Rattle.sha2.specs.Sha256.{sha256};
ghost use Rattle.amr_def.specs.Facts.{IsSound};
ghost use Rattle.amr_def.specs.Plot.{plot};
ghost use Rattle.amr_patch.specs.Meshes.{is_spent, state_of};
ghost use Rattle.amr_trial.specs.Summary.{box_count, summary};

use crate::DigestSink;
use crate::fragments::put;
use amr_causes::NoMemory;
use amr_def::Problem;
use amr_io::Fragment;
use amr_patch::Mesh;
use amr_plot::plot;
use std::alloc::Global;

/// More than the longest line.
const ROOM: usize = 256;

/// The SHA-256 of the plot of the mesh's state, whose text stands nowhere whole.
fn plot_digest(p: &Problem, mesh: &Mesh) -> [u8; 32]
    requires whole { is_spent mesh.now ≡ false }
    requires sound { IsSound p.now (state_of mesh.now) }
    ensures { result ≡ sha256 (plot p.now (state_of mesh.now)) }
{
    let mut sink = DigestSink::make();
    plot(p, mesh, &mut sink).unwrap();
    sink.finish()
}

/// How many boxes all levels have.
fn box_count(mesh: &Mesh) -> u64
    requires whole { is_spent mesh.now ≡ false }
    requires few { box_count (state_of mesh.now) < 2 ^ 64 }
    ensures { result ≡ box_count (state_of mesh.now) }
{
    let levels = mesh.levels();
    let mut count = 0;
    for level in levels {
        count += level.boxes().len() as u64;
    }
    count
}

/// The line on the state of the mesh, which is a sound state of the problem and not spent. It has the trial's number
/// and size, the step, how many levels there are, and how many boxes all of them have. Then come the mass in the
/// ledger's row of this step, and the SHA-256 of the state's plot in lower-case hexadecimal digits. `NoMemory` is the
/// only refusal.
pub fn summary(
    alloc: Global,
    number: u32,
    size: u32,
    p: &Problem,
    mesh: &Mesh,
) -> Result<Vec<u8>, NoMemory>
    requires whole { is_spent mesh.now ≡ false }
    requires sound { IsSound p.now (state_of mesh.now) }
    ensures { IfOk result (λ line. line.items ≡ summary number size p.now (state_of mesh.now)) }
{
    let step = mesh.step();
    let row = mesh.row(step);
    let digits = hex::encode(alloc, plot_digest(p, mesh))?;
    let mut line = Vec::with_capacity(alloc, ROOM)?;
    put(
        &[
            Fragment::Str("trial "),
            Fragment::Number(u64::from(number)),
            Fragment::Str(" "),
            Fragment::Number(u64::from(size)),
            Fragment::Str(" step "),
            Fragment::Number(u64::from(step)),
            Fragment::Str(" levels "),
            Fragment::Number(mesh.levels().len() as u64),
            Fragment::Str(" boxes "),
            Fragment::Number(box_count(mesh)),
            Fragment::Str(" mass "),
            Fragment::Number(row.mass),
            Fragment::Str(" sha256 "),
            Fragment::Str(digits.as_str()),
            Fragment::Str("\n"),
        ],
        &mut line,
    )?;
    Ok(line)
}
