//! The texts of a level's boxes, made by several threads: each has a run of the boxes' parts.

ghost use Rattle.std.specs.Prelude.{◌≡◌, ℕ, ◌*◌, ◌<◌, List, length, take, IfOk};
ghost use Rattle.std.specs.List.{All, flat_map};
ghost use Rattle.amr_plot.specs.BoxParts.{IsPartOf, part_text};
ghost use Rattle.amr_plot.specs.Layers.{layer_boxes, boxes_text, IsLayer};
ghost use Rattle.amr_plot.specs.Texts.{AreTextsOfRuns, joined};
ghost use Rattle.amr_plot.specs.declared.parts.Part.{Part};

use crate::layer::Layer;
use crate::parts::{Part, parts_of, put_parts};
use crate::pen::Sheet;
use amr_causes::NoMemory;
use amr_io::{Page, Text, WriteFault};
use std::alloc::Global;
use std::thread::{Threads, map_chunks};

/// The text of some parts of boxes, in memory. It fails where there is none.
fn text_of(alloc: Global, layer: Layer<'_>, parts: &[Part]) -> Result<Vec<u8>, WriteFault>
    requires layer { IsLayer layer }
    requires of_layer { All (IsPartOf layer) parts.now }
    ensures { IfOk result (λ v. v.items ≡ flat_map (part_text layer.entry) parts.now) }
{
    let mut page = Page::make(alloc);
    let mut sheet = Sheet {
        text: Text::make(),
        sink: &mut page,
    };
    put_parts(layer, parts, &mut sheet)?;
    sheet.finish()?;
    Ok(page.into_bytes())
}

/// The texts of all runs, in order. `NoMemory` where a run has none.
fn join_runs(
    alloc: Global,
    runs: Vec<Result<Vec<u8>, WriteFault>>,
) -> Result<Vec<Vec<u8>>, NoMemory>
    ensures { IfOk result (λ v. (f : Part → List ℕ) (ps : List Part) (size : ℕ) → AreTextsOfRuns f ps size runs.items
        → joined v.items ≡ flat_map f (take (length runs.items * size) ps)) }
{
    let mut texts = Vec::new(alloc);
    for run in runs {
        match run {
            Ok(text) => texts.push(text)?,
            Err(_) => return Err(NoMemory),
        }
    }
    Ok(texts)
}

/// The texts of the boxes of a level, of each run of their parts one, in order. At most `threads` runs are written at once.
pub(crate) fn texts_by_runs<R: Threads + Sync>(
    rt: &R,
    threads: usize,
    alloc: Global,
    layer: Layer<'_>,
) -> Result<Vec<Vec<u8>>, NoMemory>
    requires some { 0 < threads }
    requires layer { IsLayer layer }
    ensures { IfOk result (λ v. joined v.items ≡ boxes_text layer.entry (layer_boxes layer.entry)) }
{
    let parts = parts_of(alloc, layer, layer.boxes())?;
    let size = parts.len().div_ceil(threads).max(1);
    let write = move |_from: usize, run: &[Part]| -> Result<Vec<u8>, WriteFault>
        requires { IsLayer layer × All (IsPartOf layer) run.now }
        ensures { IfOk result (λ v. v.items ≡ flat_map (part_text layer.entry) run.entry.now) }
    { text_of(alloc, layer, run) };
    let runs = map_chunks(rt, alloc, &parts, size, &write)?;
    join_runs(alloc, runs)
}
