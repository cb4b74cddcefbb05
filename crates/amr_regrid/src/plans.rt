//! Levels put in place of those of before.

ghost use Rattle.std.specs.Prelude.{◌≡◌, ℕ, ◌<◌, false, length, slice_index_or};
ghost use Rattle.std.specs.List.{All};
ghost use Rattle.amr_patch.specs.Meshes.{is_spent};
ghost use Rattle.amr_regrid.specs.Plans.{HasRoom, IsInstalled};
ghost use Rattle.amr_regrid.specs.Remade.{level_there, remade_levels};
ghost use Rattle.amr_regrid.specs.declared.plans.Plan.{Plan};

use crate::masses::Remade;
use amr_patch::{Level, Mesh};

/// What a regrid makes of a mesh, with all the memory that it takes.
#[derive(Drop)]
pub(crate) struct Plan {
    /// What becomes of each level.
    pub remade: Vec<Remade>,
    /// No level yet, and a place for each.
    pub room: Vec<Level>,
}

/// The level that will stand where an old one does or none: the old one or the one that was made.
fn level_there(old: Option<Level>, remade: Remade) -> Option<Level>
    ensures { result ≡ level_there old remade }
{
    match remade {
        Remade::Kept => old,
        Remade::Made(level) => Some(level),
    }
}

/// The levels that were made in place of those that were there. Those that were kept stay, and those beyond go.
fn planned(levels: Vec<Level>, plan: Plan) -> Vec<Level>
    requires { HasRoom plan }
    ensures { result.items ≡ remade_levels levels.items plan.remade.items }
{
    let Plan { remade, room } = plan;
    let mut all = room;
    let mut olds = levels.into_iter();
    for r in remade {
        if let Some(level) = level_there(olds.next(), r) {
            all.push_reserved(level);
        }
    }
    all
}

/// Gives a mesh the levels of its plan. Its step and rows stay.
fn install(mesh: &mut Mesh, plan: Plan)
    requires whole { is_spent mesh.old ≡ false }
    requires room { HasRoom plan }
    ensures { IsInstalled plan mesh.old mesh.new }
{
    let step = mesh.step();
    let (rows, levels) = mesh.take();
    *mesh = Mesh::of(step, rows, planned(levels, plan));
}

/// Gives each mesh the levels of its plan. No memory is taken.
pub(crate) fn install_all(meshes: &mut [Mesh], plans: Vec<Plan>)
    requires whole { All (λ m. is_spent m ≡ false) meshes.old }
    requires count { length plans.items ≡ length meshes.old }
    requires room { All HasRoom plans.items }
    ensures { (k : ℕ) (m : Mesh) (r : Plan) → k < length meshes.old
        → IsInstalled (slice_index_or plans.items k r) (slice_index_or meshes.old k m) (slice_index_or meshes.new k m) }
{
    let mut plans = plans;
    while let Some(plan) = plans.pop() {
        install(&mut meshes[plans.len()], plan);
    }
}
