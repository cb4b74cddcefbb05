//! Two levels, one below the other, between which register cells lie.

ghost use Rattle.std.specs.Prelude.{◌≡◌, suc, ◌≤◌};
ghost use Rattle.amr_box.specs.declared.Cell.{Cell};
ghost use Rattle.amr_def.specs.Facts.{IsLevel, IsNestedLevel};
ghost use Rattle.amr_def.specs.State.{is_covered};
ghost use Rattle.amr_patch.specs.Levels.{level_of};
ghost use Rattle.amr_register.specs.Covers.{covers};

use crate::cover::Cover;
use amr_def::Problem;
use amr_patch::Level;

/// Level `l` of a problem, the finer one that is nested in it, and which of its cells that one covers.
#[derive(Clone, Copy)]
pub(crate) struct LevelPair<'a> {
    pub(crate) p: &'a Problem,
    pub(crate) l: u32,
    pub(crate) coarse: &'a Level,
    pub(crate) fine: &'a Level,
    pub(crate) cover: &'a Cover,
    pub ghost few: { l ≤ 3 },
    pub ghost coarse_level: { IsLevel p.now l (level_of coarse.now) },
    pub ghost fine_level: { IsLevel p.now (suc l) (level_of fine.now) },
    pub ghost nested: { IsNestedLevel p.now l (level_of coarse.now) (level_of fine.now) },
    pub ghost covered: { (c : Cell) → covers cover.now c ≡ is_covered (level_of fine.now).masses c },
}
