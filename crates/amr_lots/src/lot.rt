//! A lot, and the piece of a task: a lot on its way through a phase of its level.

ghost use Rattle.std.specs.Prelude.{◌≡◌, ◌≢◌, true, false};
ghost use Rattle.amr_lots.specs.declared.lot.Duty.TheVariants.{Step};
ghost use Rattle.amr_lots.specs.declared.lot.LotStage.TheVariants.{Finished};

use amr_board::Piece;
use amr_def::Problem;
use amr_flux::{PatchSides, Room};
use amr_ghost::{FrameCopy, Message, OuterGhosts};
use amr_layout::{LevelFlows, PatchLayout};
use amr_patch::{Level, Order, Patch};
use amr_register::{EdgeCell, Register};
use std::alloc::Global;
use std::boxed::Box;
use std::snapshot::Snapshot;
use std::sync::Arc;

/// What corrects patches of a level after both steps of the next finer one: the level's flux register and the finer patches, lent to a lot.
#[derive(Drop)]
pub struct Correction {
    /// The register, with a list of register cells for each patch of the level.
    pub register: Arc<Register, Global>,
    /// The patches of the finer level.
    pub finer: Arc<Vec<Patch>, Global>,
    /// How these stand.
    pub order: Order,
    /// The number that the lot's first patch has in the level.
    pub first: usize,
}

/// What a worker needs for the patches of a lot besides them. Most of it depends on boxes alone, so it serves each step until a regrid.
#[derive(Drop)]
pub struct Workspace {
    /// What each patch puts on a board, and reads there.
    pub layouts: Vec<PatchLayout>,
    /// The flows that each patch adds to words, through faces on its edges that it owns. Each word is given by its place in
    /// `words`, or by its number where the lot is all of its level.
    pub flows: LevelFlows,
    /// The sides of each patch on which faces lie whose fluxes are put or added.
    pub sides: Vec<PatchSides>,
    /// The words of the level that the flows go to; none where the lot is all of its level.
    pub words: Vec<u32>,
    /// What flows to each of these words, all patches together.
    pub totals: Vec<u64>,
    /// Where ghost cells of the patches get masses of patches of the lot.
    pub copies: Vec<FrameCopy>,
    /// The ghost cells that get no mass of a patch of the level, with their values.
    pub outer: OuterGhosts,
    /// What the lot sends, a message for each lot of the level. That for itself is empty.
    pub outbox: Vec<Message>,
    /// What it gets, a message from each lot of the level: before its step that of now, after it room for the next one.
    pub inbox: Vec<Message>,
    /// Room for a row of fluxes of the widest patch.
    pub room: Room,
    /// Room for the sizes of what flows through all border faces that have a place.
    pub sizes: Vec<u32>,
}

/// A lot: patches of a level that one worker works on, in the level's order, and what it works with.
#[derive(Drop)]
pub struct Lot {
    /// The patches, while a phase is run; else others of any boxes, as many.
    pub patches: Vec<Patch>,
    /// Patches that keep the masses of before a step, while those are copied; else others of any boxes, as many.
    pub before: Vec<Patch>,
    /// The register cells of each patch, while a step over a finer level is made; else empty lists, one a patch.
    pub edges: Vec<Vec<EdgeCell>>,
    /// What corrects its patches, while it is lent.
    pub correction: Option<Correction>,
    pub workspace: Workspace,
}

/// What is done with the lots of a level in a phase.
#[derive(Clone, Copy, PartialEq, Eq, Debug)]
pub enum Duty {
    /// The masses that other lots need are packed.
    Send,
    /// The patches make their step.
    Step,
    /// The patches are corrected, by the register and the finer level that were lent, and the masses that other lots need for the next step
    /// are packed.
    Correct,
    /// The masses of the patches are copied into those that keep them as they are before a step.
    Keep,
}

impl Duty {
    /// Whether something is put and added: in a step alone.
    pub fn posts(self) -> bool
        ensures step { result ≡ true → self ≡ Step }
        ensures others { result ≡ false → self ≢ Step }
    {
        match self {
            Duty::Step => true,
            Duty::Send | Duty::Correct | Duty::Keep => false,
        }
    }
}

/// How far a lot is in its phase.
#[derive(Clone, Copy, PartialEq, Eq, Debug)]
pub enum LotStage {
    /// Nothing is done. In a step: each patch has its masses of before.
    Raw,
    /// In a step: frames are filled, and what the lot posts is posted. The patches that read no place have their new masses, the
    /// others those of before.
    Swept,
    /// All is done.
    Finished,
}

impl LotStage {
    /// Whether all is done.
    pub fn is_finished(self) -> bool
        ensures finished { result ≡ true → self ≡ Finished }
        ensures unfinished { result ≡ false → self ≢ Finished }
    {
        match self {
            LotStage::Finished => true,
            LotStage::Raw | LotStage::Swept => false,
        }
    }
}

/// What a step is worked out from, for contracts alone: the problem, the patches of the level, and the next coarser level before its own
/// step, where there is one.
#[derive(Drop)]
pub struct StepBasis {
    pub problem: Snapshot<Problem>,
    pub patches: Snapshot<Vec<Patch>>,
    pub coarser: Option<Snapshot<Level>>,
}

/// The piece of a task: a lot of a level of a problem, what is done with it, and how far that is. What it means follows from it alone. The
/// lot lies in a block of its own, which stays where it is while the piece moves over the board.
#[derive(Drop)]
pub struct Work {
    /// The number of the task.
    pub task: u32,
    /// The level, from 0 to 4.
    pub level: u32,
    pub duty: Duty,
    pub stage: LotStage,
    pub lot: Box<Lot>,
    /// What the phase begins with, which no byte stands for.
    pub basis: Snapshot<StepBasis>,
}

impl Piece for Work {
    ghost use Rattle.amr_lots.specs.Works.{adds_of_work, puts_of_work, StandsFor};

    ghost task = { λ w. w.task };

    ghost puts = { puts_of_work };

    ghost adds = { adds_of_work };

    ghost becomes = { StandsFor };
}
