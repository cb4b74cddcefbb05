//! What a run that keeps checkpoints calls after each step.
ghost use Rattle.std.specs.Prelude.{◌≡◌, ◌∷◌, [], List, ℕ, OnOk};
ghost use Rattle.amr_checkpoint.specs.KeptCheckpoints.{Keeps, checkpoints_of, fault_in, run_of};
ghost use Rattle.amr_checkpoint.specs.Outside.{outside_at};
ghost use Rattle.amr_run.specs.Keeper.{HasProblem, MayKeep};

use amr_checkpoint::{KeepFault, Keeping, KeptStore, keep_state};
use amr_disk::Disk;
use amr_drive::AfterStep;
use amr_io::Sink;
use amr_patch::Mesh;

/// Keeps the states of a run at its marks, in a lent store on a lent disk, and acknowledges them on a lent stream of errors. After
/// a refusal there is no store.
#[derive(Drop)]
pub(crate) struct Keeper<'p, 's, 'e, 'd, E: Sink, D: Disk> {
    pub keeping: Keeping<'p>,
    pub store: &'s mut Option<KeptStore>,
    pub err: &'e mut E,
    pub disk: &'d mut D,
}

impl<'p, 's, 'e, 'd, E: Sink, D: Disk> AfterStep for Keeper<'p, 's, 'e, 'd, E, D> {
    ghost use Rattle.std.specs.Prelude.{refl};
    ghost use Rattle.std.proofs.Common.{◌∙◌, subst, sym};
    ghost use Rattle.amr_checkpoint.proofs.KeptStates.{checkpoints_on, keeps_none, keeps_on};
    ghost use Rattle.amr_checkpoint.specs.Contents.{Content};
    ghost use Rattle.amr_checkpoint.specs.declared.acknowledgement.Keeping.{Keeping};

    type Fault = KeepFault;

    ghost ready = { λ keeper s. MayKeep D.seen D.moment D.leaves keeper.keeping.problem.now keeper.keeping.every keeper.store.now keeper.disk.now s };

    // The disk and the stream are those of before, and what was called keeps the state.
    ghost answers = { λ a s answer b. (b.keeping ≡ a.keeping) × (b.store.ghost_name ≡ a.store.ghost_name) × (b.err.ghost_name ≡ a.err.ghost_name)
        × (b.disk.ghost_name ≡ a.disk.ghost_name)
        × ((bytes : List ℕ) → HasProblem a.store.now bytes → OnOk answer (HasProblem b.store.now bytes)
        × (let shown = outside_at D.seen D.moment D.leaves D.faults E.holds E.faults in
        Keeps a.keeping.deltas (shown a.disk.now a.err.now) (shown b.disk.now b.err.now)
        (checkpoints_of (run_of bytes a.keeping) (s ∷ [])) (fault_in answer))) };

    ghost made = { λ a states answer b. (b.keeping ≡ a.keeping) × (b.store.ghost_name ≡ a.store.ghost_name) × (b.err.ghost_name ≡ a.err.ghost_name)
        × (b.disk.ghost_name ≡ a.disk.ghost_name)
        × ((bytes : List ℕ) → HasProblem a.store.now bytes → OnOk answer (HasProblem b.store.now bytes)
        × (let shown = outside_at D.seen D.moment D.leaves D.faults E.holds E.faults in
        Keeps a.keeping.deltas (shown a.disk.now a.err.now) (shown b.disk.now b.err.now)
        (checkpoints_of (run_of bytes a.keeping) states) (fault_in answer))) };

    ghost made_none = { λ a. (
      refl,
      refl,
      refl,
      refl,
      λ bytes has. (
        has,
        keeps_none a.keeping.deltas (outside_at D.seen D.moment D.leaves D.faults E.holds E.faults a.disk.now a.err.now),
      ),
    ) };

    ghost made_more = { λ a b c states s answer so_far one. (
      one.0 ∙ so_far.0,
      one.1 ∙ so_far.1,
      one.2 ∙ so_far.2,
      one.3 ∙ so_far.3,
      λ bytes has.
          let shown = outside_at D.seen D.moment D.leaves D.faults E.holds E.faults in
          let kept = checkpoints_of (run_of bytes a.keeping) in
          let first = so_far.4 bytes has in
          let next = one.4 bytes first.0 in (
            next.0,
            subst (λ (all : List Content). Keeps a.keeping.deltas (shown a.disk.now a.err.now) (shown c.disk.now c.err.now) all (fault_in answer))
                (sym (checkpoints_on (run_of bytes a.keeping) states (s ∷ [])))
                (keeps_on a.keeping.deltas (shown a.disk.now a.err.now) (shown b.disk.now b.err.now) (shown c.disk.now c.err.now) (kept states) (kept (s ∷ []))
                (fault_in answer) first.1
                (subst (λ (k : Keeping). Keeps k.deltas (shown b.disk.now b.err.now) (shown c.disk.now c.err.now) (checkpoints_of (run_of bytes k) (s ∷ []))
                (fault_in answer)) so_far.0 next.1)),
          ),
    ) };

    fn after(&mut self, mesh: &Mesh) -> Result<(), KeepFault> {
        match self.store.take() {
            Some(store) => match keep_state(&self.keeping, mesh, store, self.err, self.disk) {
                Ok(kept) => {
                    *self.store = Some(kept);
                    Ok(())
                }
                Err(fault) => Err(fault),
            },
            None => Ok(()),
        }
    }
}
