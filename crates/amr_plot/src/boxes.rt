//! Boxes of a level, one after another, each its line and the rows of each species.

ghost use Rattle.std.specs.Prelude.{◌<◌, ◌≤◌, ◌+◌, ◌==◌, [], cond, length};
ghost use Rattle.std.specs.List.{All};
ghost use Rattle.amr_box.specs.Cells.{height};
ghost use Rattle.amr_def.specs.Plot.{box_text, names_species, species_line};
ghost use Rattle.amr_plot.specs.BoxParts.{some_rows};
ghost use Rattle.amr_plot.specs.Layers.{boxes_text, layer_masses, IsLayerBox, IsLayer};
ghost use Rattle.amr_plot.specs.Pens.{Puts};

use crate::layer::Layer;
use crate::lines::{box_row, species_row};
use crate::pen::Pen;
use crate::rows::put_rows;
use amr_box::Bx;

/// The line of a species in a box, where plots name species.
fn put_species_line<P: Pen>(
    layer: Layer<'_>,
    species: usize,
    first: u32,
    pen: &mut P,
) -> Result<(), P::Fault>
    ensures { Puts P.wrote P.failed pen.old pen.new (cond (first == 0) (species_line (names_species layer.entry.problem.now) species) []) result }
{
    if first == 0 && layer.names_species() {
        pen.put_fragments(&species_row(species))?;
    }
    Ok(())
}

/// So many rows of a species in a box, from row `first` on; the species' line before row 0.
pub(crate) fn put_some_rows<P: Pen>(
    layer: Layer<'_>,
    b: &Bx,
    species: usize,
    first: u32,
    count: u32,
    pen: &mut P,
) -> Result<(), P::Fault>
    requires layer { IsLayer layer }
    requires of_layer { IsLayerBox layer b.now }
    requires there { species < length layer.meshes.now }
    requires within { first + count ≤ height b.now }
    ensures { Puts P.wrote P.failed pen.old pen.new (some_rows layer.entry b.now species first count) result }
{
    put_species_line(layer, species, first, pen)?;
    put_rows(layer.level(species), b, first, count, pen)
}

/// A box and its rows.
fn put_box<P: Pen>(layer: Layer<'_>, b: &Bx, pen: &mut P) -> Result<(), P::Fault>
    requires layer { IsLayer layer }
    requires of_layer { IsLayerBox layer b.now }
    ensures { Puts P.wrote P.failed pen.old pen.new (box_text (names_species layer.entry.problem.now) (layer_masses layer.entry) b.now) result }
{
    pen.put_fragments(&box_row(layer, b))?;
    let height = b.height();
    for species in 0..layer.meshes.len() {
        put_some_rows(layer, b, species, 0, height, pen)?;
    }
    Ok(())
}

/// Boxes of a level, in order.
pub(crate) fn put_boxes<P: Pen>(layer: Layer<'_>, boxes: &[Bx], pen: &mut P) -> Result<(), P::Fault>
    requires layer { IsLayer layer }
    requires of_layer { All (IsLayerBox layer) boxes.now }
    ensures { Puts P.wrote P.failed pen.old pen.new (boxes_text layer.entry boxes.now) result }
{
    for b in boxes {
        put_box(layer, b, pen)?;
    }
    Ok(())
}
