//! The tags of a level.

ghost use Rattle.std.specs.Prelude.{◌≡◌, ◌<◌, IfOk, OnErr, OnOk, map};
ghost use Rattle.std.specs.List.{All, AllZip};
ghost use Rattle.std.specs.Option.{option_copied};
ghost use Rattle.amr_box.specs.declared.Cell.{Cell};
ghost use Rattle.amr_def.specs.Domain.{domain, domain_box};
ghost use Rattle.amr_def.specs.Facts.{IsLevel};
ghost use Rattle.amr_def.specs.State.{Masses};
ghost use Rattle.amr_def.specs.Tags.{is_tagged_by};
ghost use Rattle.amr_ghost.specs.Fills.{AreSourcesOf, FillsFrames};
ghost use Rattle.amr_ghost.specs.Frames.{HasGhostMarks, HasGhostValues, old_masses};
ghost use Rattle.amr_patch.specs.Levels.{level_of, patches_of};
ghost use Rattle.amr_patch.specs.Patches.{SameFluxes, box};
ghost use Rattle.amr_tags.specs.TagSets.{SameShape, has};
ghost use Rattle.amr_criterion.specs.Pairs.{IsJoined};

use crate::patches::tag_patches;
use amr_causes::NoMemory;
use amr_def::Problem;
use amr_ghost::{FrameSources, fill, find_sources};
use amr_nest::domain_box;
use amr_patch::{Level, starts_of};
use amr_tags::Tags;
use std::alloc::Global;

/// Tags the cells of a level that are to be refined, and fills the frames of its patches.
fn tag_level(tags: &mut Tags, p: &Problem, l: u32, level: &mut Level, sources: &FrameSources)
    requires below { l < p.now.max_level }
    requires of_domain { IsLevel p.now l (level_of level.old) }
    requires sources { AreSourcesOf (patches_of level.old) sources.now }
    ensures shape { SameShape tags.old tags.new }
    ensures tags { (old : Masses) → FillsFrames p.now l old (patches_of level.old) sources.now
        → IsJoined (is_tagged_by p.now l (level_of level.old).masses old) tags.old tags.new }
    ensures level { level_of level.new ≡ level_of level.old }
    ensures patches { map box (patches_of level.new) ≡ map box (patches_of level.old) }
    ensures fluxes { AllZip SameFluxes (patches_of level.old) (patches_of level.new) }
    ensures frames { (old : Masses) → FillsFrames p.now l old (patches_of level.old) sources.now
        → All (HasGhostValues p.now l (level_of level.old).masses old) (patches_of level.new) }
    ensures marks { (old : Masses) → FillsFrames p.now l old (patches_of level.old) sources.now
        → All (HasGhostMarks p.now l (level_of level.old).masses) (patches_of level.new) }
{
    let dom = p.domain(l);
    let threshold = p.tag.entries()[l as usize];
    let order = level.order();
    let mut patches = level.take_patches();
    fill(&mut patches, sources);
    tag_patches(tags, &patches, &dom, threshold);
    level.put_patches_in_order(patches, order);
}

/// The cells of level `l` that are to be refined: those whose value differs from a neighbour's by the level's threshold
/// or more. The neighbour lies in the domain, past the end of a periodic axis too. The level is below the greatest and
/// lies in its domain. `coarse` is the next coarser level, whose masses stand for a quarter each in the cells beside
/// the level. (Tags are Berger and Colella's; the criterion is this program's own.)
///
/// The frames of the patches are filled first. Then each patch is gone over row by row, and what is tagged is set span by span.
/// The boxes and masses of the level stay, and so do its patch boxes and its fluxes. After `NoMemory`, the only refusal, the level is
/// as before.
pub fn tags(
    alloc: Global,
    p: &Problem,
    l: u32,
    level: &mut Level,
    coarse: Option<&Level>,
) -> Result<Tags, NoMemory>
    requires below { l < p.now.max_level }
    requires of_domain { IsLevel p.now l (level_of level.old) }
    ensures in_box { IfOk result (λ t. t.bx ≡ domain_box (domain p.now l)) }
    ensures axes { IfOk result (λ t. (t.wrap_x ≡ (domain p.now l).wrap_x) × (t.wrap_y ≡ (domain p.now l).wrap_y)) }
    ensures cells { IfOk result (λ t. (c : Cell) → has t c ≡ is_tagged_by p.now l (level_of level.old).masses (old_masses (option_copied coarse.entry)) c) }
    ensures level { level_of level.new ≡ level_of level.old }
    ensures patches { map box (patches_of level.new) ≡ map box (patches_of level.old) }
    ensures fluxes { OnOk result (AllZip SameFluxes (patches_of level.old) (patches_of level.new)) }
    ensures frames { OnOk result (All (HasGhostValues p.now l (level_of level.old).masses (old_masses (option_copied coarse.entry))) (patches_of level.new)) }
    ensures marks { OnOk result (All (HasGhostMarks p.now l (level_of level.old).masses) (patches_of level.new)) }
    ensures refused { OnErr result (level.new ≡ level.old) }
{
    let dom = p.domain(l);
    let mut tags = Tags::make(alloc, domain_box(&dom), dom.wrap_x, dom.wrap_y)?;
    let starts = starts_of(alloc, level.patches())?;
    let sources = find_sources(alloc, p, l, level.patches(), level.order(), &starts, coarse)?;
    tag_level(&mut tags, p, l, level, &sources);
    Ok(tags)
}
