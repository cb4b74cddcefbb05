//! The whole plot.

ghost use Rattle.std.specs.Prelude.{◌≡◌, ◌<◌, ◌≤◌, [], false, length, map, OnOk, OnErr};
ghost use Rattle.std.specs.List.{All};
ghost use Rattle.amr_causes.specs.Causes.{HasCause};
ghost use Rattle.amr_causes.specs.Bytes.{Grows, TakesPrefix};
ghost use Rattle.amr_def.specs.Facts.{IsSound, row_at};
ghost use Rattle.amr_def.specs.Plot.{ledger_lines, names_species, numbered, plot, plot_all};
ghost use Rattle.amr_def.specs.Species.{IsFlock, by_place, first_state};
ghost use Rattle.amr_io.specs.Short.{FallsShort};
ghost use Rattle.amr_patch.specs.Meshes.{is_spent, state_of};
ghost use Rattle.amr_plot.specs.Layers.{ArePlotted};
ghost use Rattle.amr_plot.specs.Pens.{Puts};

use crate::levels::put_levels;
use crate::lines::{head, ledger_row};
use crate::pen::{Pen, Sheet};
use crate::texts::{Putter, TextMaker, TextThreads};
use amr_def::Problem;
use amr_io::{CountSink, Fragment, Sink, Text, WriteFault};
use amr_patch::Mesh;
use std::alloc::Global;
use std::slice;
use std::thread::Threads;

/// Row `k` of the ledger of each species.
fn put_ledger_lines<P: Pen>(
    p: &Problem,
    meshes: &[Mesh],
    k: u32,
    pen: &mut P,
) -> Result<(), P::Fault>
    requires plotted { ArePlotted p.now meshes.now }
    requires there { k < length (first_state (map state_of meshes.now)).rows }
    ensures { Puts P.wrote P.failed pen.old pen.new (ledger_lines (names_species p.now) k (map (λ s. row_at s k) (map state_of meshes.now))) result }
{
    for (species, mesh) in meshes.iter().enumerate() {
        let row = ledger_row(p.version >= 3, k, species, mesh.row(k));
        pen.put_fragments(&row)?;
    }
    Ok(())
}

/// The rows of the ledger.
fn put_ledger<P: Pen>(p: &Problem, meshes: &[Mesh], pen: &mut P) -> Result<(), P::Fault>
    requires { ArePlotted p.now meshes.now }
    ensures { let ss = map state_of meshes.now in Puts P.wrote P.failed pen.old pen.new
        (numbered (ledger_lines (names_species p.now)) 0 (by_place row_at (length (first_state ss).rows) ss)) result }
{
    let count = meshes[0].step() + 1;
    for k in 0..count {
        put_ledger_lines(p, meshes, k, pen)?;
    }
    Ok(())
}

/// The plot, with the texts of boxes made by this maker.
fn put_plot<S: TextMaker, P: Pen>(
    maker: &S,
    p: &Problem,
    meshes: &[Mesh],
    pen: &mut P,
) -> Result<(), P::Fault>
    requires shared { S.may_share maker.now }
    requires plotted { ArePlotted p.now meshes.now }
    ensures { Puts P.wrote P.failed pen.old pen.new (plot_all p.now (map state_of meshes.now)) result }
{
    pen.put_fragments(&head(p, meshes[0].step()))?;
    put_ledger(p, meshes, pen)?;
    put_levels(maker, p, meshes, pen)?;
    pen.put_fragments(&[Fragment::Str("end\n")])
}

/// The plot, all of it sent, from a buffer that keeps nothing back.
fn write_plot<S: TextMaker, O: Sink>(
    maker: &S,
    p: &Problem,
    meshes: &[Mesh],
    sheet: &mut Sheet<'_, O>,
) -> Result<(), WriteFault>
    requires shared { S.may_share maker.now }
    requires plotted { ArePlotted p.now meshes.now }
    requires empty { sheet.old.text ≡ [] }
    ensures same { sheet.new.sink.ghost_name ≡ sheet.old.sink.ghost_name }
    ensures whole { OnOk result (Grows O.holds sheet.old.sink.now sheet.new.sink.now (plot_all p.now (map state_of meshes.now))) }
    ensures part { TakesPrefix O.holds sheet.old.sink.now sheet.new.sink.now (plot_all p.now (map state_of meshes.now)) }
    ensures short { OnErr result (FallsShort O.holds sheet.old.sink.now sheet.new.sink.now (plot_all p.now (map state_of meshes.now))) }
    ensures no_fault { OnOk result (O.faults sheet.new.sink.now ≡ O.faults sheet.old.sink.now) }
    ensures cause { HasCause (O.faults sheet.old.sink.now) (O.faults sheet.new.sink.now) result }
{
    put_plot(maker, p, meshes, sheet)?;
    sheet.finish()
}

/// Writes the plot, with the texts of boxes made by this maker.
fn plot_by<S: TextMaker, O: Sink>(
    maker: &S,
    p: &Problem,
    meshes: &[Mesh],
    sink: &mut O,
) -> Result<(), WriteFault>
    requires shared { S.may_share maker.now }
    requires plotted { ArePlotted p.now meshes.now }
    ensures whole { OnOk result (Grows O.holds sink.old sink.new (plot_all p.now (map state_of meshes.now))) }
    ensures part { TakesPrefix O.holds sink.old sink.new (plot_all p.now (map state_of meshes.now)) }
    ensures short { OnErr result (FallsShort O.holds sink.old sink.new (plot_all p.now (map state_of meshes.now))) }
    ensures no_fault { OnOk result (O.faults sink.new ≡ O.faults sink.old) }
    ensures cause { HasCause (O.faults sink.old) (O.faults sink.new) result }
{
    let mut sheet = Sheet {
        text: Text::make(),
        sink,
    };
    write_plot(maker, p, meshes, &mut sheet)
}

/// Writes the plot of the meshes' states, one of each species in the order of their numbers, through a buffer of fixed size; it
/// takes no memory. The meshes are sound states of the problem on the same boxes and at one step, and none is spent. A
/// `WriteFault` comes only where the sink's count of faults rose; a prefix of the plot went out, and not all of it.
pub fn plot_all<O: Sink>(p: &Problem, meshes: &[Mesh], sink: &mut O) -> Result<(), WriteFault>
    requires whole { All (λ m. is_spent m ≡ false) meshes.now }
    requires flock { IsFlock p.now (map state_of meshes.now) }
    ensures whole { OnOk result (Grows O.holds sink.old sink.new (plot_all p.now (map state_of meshes.now))) }
    ensures part { TakesPrefix O.holds sink.old sink.new (plot_all p.now (map state_of meshes.now)) }
    ensures short { OnErr result (FallsShort O.holds sink.old sink.new (plot_all p.now (map state_of meshes.now))) }
    ensures no_fault { OnOk result (O.faults sink.new ≡ O.faults sink.old) }
    ensures cause { HasCause (O.faults sink.old) (O.faults sink.new) result }
{
    plot_by(&Putter, p, meshes, sink)
}

/// Writes the plot of a mesh's state, the only one of its problem: as [`plot_all`] of that mesh.
pub fn plot<O: Sink>(p: &Problem, mesh: &Mesh, sink: &mut O) -> Result<(), WriteFault>
    requires whole { is_spent mesh.now ≡ false }
    requires sound { IsSound p.now (state_of mesh.now) }
    ensures whole { OnOk result (Grows O.holds sink.old sink.new (plot p.now (state_of mesh.now))) }
    ensures part { TakesPrefix O.holds sink.old sink.new (plot p.now (state_of mesh.now)) }
    ensures short { OnErr result (FallsShort O.holds sink.old sink.new (plot p.now (state_of mesh.now))) }
    ensures no_fault { OnOk result (O.faults sink.new ≡ O.faults sink.old) }
    ensures cause { HasCause (O.faults sink.old) (O.faults sink.new) result }
{
    plot_by(&Putter, p, slice::from_ref(mesh), sink)
}

/// Writes the same as [`plot_all`]. The texts of the boxes of a large level are made in memory by at most `threads` threads, each
/// a run of their rows, and put in order when all are made. Where there is no memory for that, the caller writes the boxes as
/// `plot_all` does.
pub fn plot_all_in_threads<R: Threads + Sync, O: Sink>(
    rt: &R,
    threads: usize,
    alloc: Global,
    p: &Problem,
    meshes: &[Mesh],
    sink: &mut O,
) -> Result<(), WriteFault>
    requires whole { All (λ m. is_spent m ≡ false) meshes.now }
    requires flock { IsFlock p.now (map state_of meshes.now) }
    ensures whole { OnOk result (Grows O.holds sink.old sink.new (plot_all p.now (map state_of meshes.now))) }
    ensures part { TakesPrefix O.holds sink.old sink.new (plot_all p.now (map state_of meshes.now)) }
    ensures short { OnErr result (FallsShort O.holds sink.old sink.new (plot_all p.now (map state_of meshes.now))) }
    ensures no_fault { OnOk result (O.faults sink.new ≡ O.faults sink.old) }
    ensures cause { HasCause (O.faults sink.old) (O.faults sink.new) result }
{
    let maker = TextThreads {
        runtime: rt,
        threads,
        alloc,
    };
    plot_by(&maker, p, meshes, sink)
}

/// Writes the same as [`plot`], by at most `threads` threads as [`plot_all_in_threads`].
pub fn plot_in_threads<R: Threads + Sync, O: Sink>(
    rt: &R,
    threads: usize,
    alloc: Global,
    p: &Problem,
    mesh: &Mesh,
    sink: &mut O,
) -> Result<(), WriteFault>
    requires whole { is_spent mesh.now ≡ false }
    requires sound { IsSound p.now (state_of mesh.now) }
    ensures whole { OnOk result (Grows O.holds sink.old sink.new (plot p.now (state_of mesh.now))) }
    ensures part { TakesPrefix O.holds sink.old sink.new (plot p.now (state_of mesh.now)) }
    ensures short { OnErr result (FallsShort O.holds sink.old sink.new (plot p.now (state_of mesh.now))) }
    ensures no_fault { OnOk result (O.faults sink.new ≡ O.faults sink.old) }
    ensures cause { HasCause (O.faults sink.old) (O.faults sink.new) result }
{
    let maker = TextThreads {
        runtime: rt,
        threads,
        alloc,
    };
    plot_by(&maker, p, slice::from_ref(mesh), sink)
}

/// The number of bytes of a plot.
fn count_plot(p: &Problem, meshes: &[Mesh]) -> u64
    requires plotted { ArePlotted p.now meshes.now }
    requires few { length meshes.now ≤ 4 }
    ensures { result ≡ length (plot_all p.now (map state_of meshes.now)) }
{
    let mut sink = CountSink::make();
    match put_plot(&Putter, p, meshes, &mut sink) {
        Ok(()) => sink.count(),
        Err(never) => match never {},
    }
}

/// How many bytes [`plot_all`] writes: its lines and numbers are counted in the order in which they would be put, and none is
/// made. It takes no memory. The conditions are those of `plot_all`.
pub fn plot_all_len(p: &Problem, meshes: &[Mesh]) -> u64
    requires whole { All (λ m. is_spent m ≡ false) meshes.now }
    requires flock { IsFlock p.now (map state_of meshes.now) }
    ensures { result ≡ length (plot_all p.now (map state_of meshes.now)) }
{
    count_plot(p, meshes)
}

/// How many bytes [`plot`] writes, as [`plot_all_len`].
pub fn plot_len(p: &Problem, mesh: &Mesh) -> u64
    requires whole { is_spent mesh.now ≡ false }
    requires sound { IsSound p.now (state_of mesh.now) }
    ensures { result ≡ length (plot p.now (state_of mesh.now)) }
{
    count_plot(p, slice::from_ref(mesh))
}
