//! The states of all species of a problem, in meshes.

ghost use Rattle.std.specs.Prelude.{◌≡◌, map, IfOk, OnOk};
ghost use Rattle.amr_def.specs.Run.{times};
ghost use Rattle.amr_def.specs.Species.{regrid_all, start_all};
ghost use Rattle.amr_patch.specs.Meshes.{state_of};
ghost use Rattle.amr_drive.specs.Flocks.{AreMeshesOf, IsFlockOf, meshes_of, plain_starts, states_of};

use crate::species::of_species;
use amr_causes::NoMemory;
use amr_def::Problem;
use amr_patch::Mesh;
use amr_regrid::regrid_all;
use amr_start::base;
use std::alloc::Global;

/// The meshes of a problem's species, by their numbers, all at one step and on the same boxes, and the problem of each alone. Contracts
/// see it by `meshes_of` and `states_of`. Each level is in patches of at most `max_grid_size` by `max_grid_size` cells. It is made by
/// [`Flock::start`] and goes on by [`drive_all`](crate::drive_all). After a refusal of that it is spent, and only dropped.
#[derive(Drop)]
pub struct Flock {
    pub(crate) problems: Vec<Problem>,
    pub(crate) meshes: Vec<Mesh>,
}

/// Level 0 of each species, with the masses of its blocks, and the problem of each.
fn bases(alloc: Global, p: &Problem) -> Result<Flock, NoMemory>
    ensures value { IfOk result (λ f. states_of f ≡ plain_starts p.now) }
    ensures flock { IfOk result (λ f. IsFlockOf p.now f) }
{
    let mut problems = Vec::new(alloc);
    let mut meshes = Vec::new(alloc);
    for k in 0..p.species {
        let own = of_species(alloc, p, k)?;
        let mesh = base(alloc, &own)?;
        meshes.push(mesh)?;
        problems.push(own)?;
    }
    Ok(Flock { problems, meshes })
}

/// Regrids all meshes together, once for each level that the problem may have above level 0.
fn regrid_for_start(alloc: Global, p: &Problem, meshes: &mut [Mesh]) -> Result<(), NoMemory>
    requires { AreMeshesOf p.now meshes.old }
    ensures value { OnOk result (map state_of meshes.new ≡ times (regrid_all p.now) p.now.max_level (map state_of meshes.old)) }
    ensures meshes { OnOk result (AreMeshesOf p.now meshes.new) }
{
    for _regrid in 0..p.max_level {
        regrid_all(alloc, p, meshes)?;
    }
    Ok(())
}

impl Flock {
    /// The start of a run of all species (Berger and Colella 1989): level 0 of each with the masses of its own blocks, all regridded
    /// together once for each level that the problem may have above it. `NoMemory` is the only refusal.
    pub fn start(alloc: Global, p: &Problem) -> Result<Flock, NoMemory>
        ensures value { IfOk result (λ f. states_of f ≡ start_all p.now) }
        ensures flock { IfOk result (λ f. IsFlockOf p.now f) }
    {
        let mut flock = bases(alloc, p)?;
        regrid_for_start(alloc, p, flock.meshes.as_mut_slice())?;
        Ok(flock)
    }

    /// The meshes, by the numbers of their species.
    #[tactic(auto, unfolding(crate::specs::Flocks::meshes_of))]
    pub fn meshes(&self) -> &[Mesh]
        ensures { result.now ≡ meshes_of self.now }
    {
        self.meshes.as_slice()
    }
}
