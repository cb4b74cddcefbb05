//! Levels: each its line, then its boxes in order.

ghost use Rattle.std.specs.Prelude.{◌≡◌, length, map};
ghost use Rattle.amr_def.specs.Plot.{level_text, names_species, numbered};
ghost use Rattle.amr_def.specs.Species.{by_place, first_state};
ghost use Rattle.amr_def.specs.State.{level_at};
ghost use Rattle.amr_patch.specs.Meshes.{state_of};
ghost use Rattle.amr_plot.specs.Layers.{layer_boxes, boxes_text, levels_in, ArePlotted, IsLayer};
ghost use Rattle.amr_plot.specs.Pens.{Puts};
ghost use Rattle.amr_plot.specs.Texts.{joined};

use crate::boxes::put_boxes;
use crate::layer::Layer;
use crate::lines::level_row;
use crate::pen::Pen;
use crate::texts::TextMaker;
use amr_def::Problem;
use amr_patch::Mesh;

/// Texts that are made, in order.
fn put_texts<P: Pen>(texts: &[Vec<u8>], pen: &mut P) -> Result<(), P::Fault>
    ensures { Puts P.wrote P.failed pen.old pen.new (joined texts.now) result }
{
    for made in texts {
        pen.put_bytes(made)?;
    }
    Ok(())
}

/// All boxes of a level.
fn put_level_boxes<S: TextMaker, P: Pen>(
    maker: &S,
    layer: Layer<'_>,
    pen: &mut P,
) -> Result<(), P::Fault>
    requires shared { S.may_share maker.now }
    requires layer { IsLayer layer }
    ensures { Puts P.wrote P.failed pen.old pen.new (boxes_text layer.entry (layer_boxes layer.entry)) result }
{
    match maker.made_before(layer) {
        Some(texts) => put_texts(&texts, pen),
        None => put_boxes(layer, layer.boxes(), pen),
    }
}

fn put_level<S: TextMaker, P: Pen>(maker: &S, layer: Layer<'_>, pen: &mut P) -> Result<(), P::Fault>
    requires shared { S.may_share maker.now }
    requires layer { IsLayer layer }
    ensures { Puts P.wrote P.failed pen.old pen.new (level_text (names_species layer.entry.problem.now) layer.entry.l (levels_in layer.entry)) result }
{
    pen.put_fragments(&level_row(layer.l, layer.boxes().len()))?;
    put_level_boxes(maker, layer, pen)
}

/// The levels, from level 0 on, by the mesh of each species.
pub(crate) fn put_levels<S: TextMaker, P: Pen>(
    maker: &S,
    p: &Problem,
    meshes: &[Mesh],
    pen: &mut P,
) -> Result<(), P::Fault>
    requires shared { S.may_share maker.now }
    requires plotted { ArePlotted p.now meshes.now }
    ensures { let ss = map state_of meshes.now in Puts P.wrote P.failed pen.old pen.new
        (numbered (level_text (names_species p.now)) 0 (by_place level_at (length (first_state ss).levels) ss)) result }
{
    let count = meshes[0].levels().len() as u32;
    for l in 0..count {
        let layer = Layer {
            problem: p,
            meshes,
            l,
        };
        put_level(maker, layer, pen)?;
    }
    Ok(())
}
