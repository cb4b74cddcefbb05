//! Parts of the texts of boxes: lines, and some rows each.

ghost use Rattle.std.specs.Prelude.{◌≡◌, ◌<◌, ◌++◌, OnOk, IfOk, length, slice_index_or};
ghost use Rattle.std.specs.List.{All, flat_map};
ghost use Rattle.amr_def.specs.Plot.{box_text, names_species, rows_text};
ghost use Rattle.amr_def.specs.State.{no_masses};
ghost use Rattle.amr_plot.specs.BoxParts.{IsPartOf, part_text};
ghost use Rattle.amr_plot.specs.Layers.{boxes_text, layer_masses, IsLayerBox, IsLayer};
ghost use Rattle.amr_plot.specs.Pens.{Puts};

use crate::boxes::put_some_rows;
use crate::layer::Layer;
use crate::lines::box_row;
use crate::pen::Pen;
use amr_box::Bx;
use amr_causes::NoMemory;
use std::alloc::Global;

/// How many cells the rows of a part have at most, but for one that is a single row. Threads get as many parts each, so none is to
/// be much larger than a small box: then they write about as much each.
const CELLS: u32 = 1 << 9;

/// A part of the text of a box: its line, or some of a species' rows, by the box, the species, the first and their number.
#[derive(Clone, Copy)]
pub(crate) enum Part {
    Line(Bx),
    Rows(Bx, usize, u32, u32),
}

/// Puts the parts of a species' rows behind those that are there.
fn append_rows(
    parts: &mut Vec<Part>,
    layer: Layer<'_>,
    b: &Bx,
    species: usize,
) -> Result<(), NoMemory>
    requires of_layer { IsLayerBox layer b.now }
    requires there { species < length layer.meshes.now }
    requires old { All (IsPartOf layer) parts.old.items }
    ensures texts { OnOk result (flat_map (part_text layer.entry) parts.new.items ≡ flat_map (part_text layer.entry) parts.old.items
        ++ rows_text (names_species layer.entry.problem.now) b.now species (slice_index_or (layer_masses layer.entry) species no_masses)) }
    ensures of_layer { OnOk result (All (IsPartOf layer.entry) parts.new.items) }
{
    let most = (CELLS / b.width()).max(1);
    let height = b.height();
    let mut first = 0;
    while first < height {
        let count = most.min(height - first);
        parts.push(Part::Rows(*b, species, first, count))?;
        first += count;
    }
    Ok(())
}

/// Puts the parts of a box behind those that are there.
fn append_parts(parts: &mut Vec<Part>, layer: Layer<'_>, b: &Bx) -> Result<(), NoMemory>
    requires of_layer { IsLayerBox layer b.now }
    requires old { All (IsPartOf layer) parts.old.items }
    ensures texts { OnOk result (flat_map (part_text layer.entry) parts.new.items
        ≡ flat_map (part_text layer.entry) parts.old.items ++ box_text (names_species layer.entry.problem.now) (layer_masses layer.entry) b.now) }
    ensures of_layer { OnOk result (All (IsPartOf layer.entry) parts.new.items) }
{
    parts.push(Part::Line(*b))?;
    for species in 0..layer.meshes.len() {
        append_rows(parts, layer, b, species)?;
    }
    Ok(())
}

/// The parts of boxes, in order.
pub(crate) fn parts_of(alloc: Global, layer: Layer<'_>, boxes: &[Bx]) -> Result<Vec<Part>, NoMemory>
    requires of_layer { All (IsLayerBox layer) boxes.now }
    ensures texts { IfOk result (λ v. flat_map (part_text layer.entry) v.items ≡ boxes_text layer.entry boxes.now) }
    ensures of_layer { IfOk result (λ v. All (IsPartOf layer.entry) v.items) }
{
    let mut parts = Vec::new(alloc);
    for b in boxes {
        append_parts(&mut parts, layer, b)?;
    }
    Ok(parts)
}

fn put_part<P: Pen>(layer: Layer<'_>, part: Part, pen: &mut P) -> Result<(), P::Fault>
    requires layer { IsLayer layer }
    requires of_layer { IsPartOf layer part }
    ensures { Puts P.wrote P.failed pen.old pen.new (part_text layer.entry part) result }
{
    match part {
        Part::Line(b) => pen.put_fragments(&box_row(layer, &b)),
        Part::Rows(b, species, first, count) => {
            put_some_rows(layer, &b, species, first, count, pen)
        }
    }
}

/// Parts of boxes, in order.
pub(crate) fn put_parts<P: Pen>(
    layer: Layer<'_>,
    parts: &[Part],
    pen: &mut P,
) -> Result<(), P::Fault>
    requires layer { IsLayer layer }
    requires of_layer { All (IsPartOf layer) parts.now }
    ensures { Puts P.wrote P.failed pen.old pen.new (flat_map (part_text layer.entry) parts.now) result }
{
    for part in parts {
        put_part(layer, *part, pen)?;
    }
    Ok(())
}
