//! The command `view`: the finest masses of a box after a run.
ghost use Rattle.std.specs.Prelude.{◌≡◌, ◌≢◌, ◌<◌, ◌≤◌, List, [], ℕ, Option, Some, None, Err, IfErr, IfOk, OnOk, if◌then◌else◌};
ghost use Rattle.std.specs.Io.KnownBytes.{IsAtEnd};
ghost use Rattle.amr_causes.specs.Bytes.{Grows, WereLeft};
ghost use Rattle.amr_causes.specs.Causes.{Rose};
ghost use Rattle.amr_cli.specs.Words.{AreShort};
ghost use Rattle.amr_def.specs.Domain.{domain_of};
ghost use Rattle.amr_run.specs.Outcome.{RepliesBy, status_of};
ghost use Rattle.amr_run.specs.Sources.{TakesAtMost};
ghost use Rattle.amr_run.specs.Table.{view_row};
ghost use Rattle.amr_run.specs.Views.{bad_view, box_of, is_box_in};

use crate::Status;
use crate::commands::{Workshop, mesh_of, run_to};
use crate::source::read_problem;
use amr_box::{Bx, Cell};
use amr_cli::{Corners, ViewOptions};
use amr_def::{Dom, Problem};
use amr_io::{Sink, Source};
use amr_workers::Gate;
use std::sync::Wait;
use std::thread::Threads;

/// The part of a view that a problem doesn't have, in the order in which they are looked at.
#[derive(Clone, Copy, Debug, PartialEq, Eq, Drop)]
pub enum ViewPart {
    /// The level is finer than any of the problem may be.
    Level,
    /// The corners are out of order, or not in the domain of the level.
    Box,
    /// There is no such species.
    Species,
}

/// The box with these corners, where they are in order and in the domain.
fn box_in(domain: Dom, corners: Corners) -> Option<Bx>
    requires { AreShort corners }
    ensures { result ≡ if is_box_in (domain_of domain) (box_of corners) then Some (box_of corners) else None }
{
    let low = Cell {
        x: corners.x0 as i32,
        y: corners.y0 as i32,
    };
    let high = Cell {
        x: corners.x1 as i32,
        y: corners.y1 as i32,
    };
    if domain.in_domain(low) && domain.in_domain(high) {
        Bx::try_new(low, high)
    } else {
        None
    }
}

/// The box that a view asks for, or the part of the view that the problem doesn't have.
fn seen_box(problem: &Problem, asked: &ViewOptions) -> Result<Bx, ViewPart>
    requires level { asked.now.level ≤ 4 }
    requires short { AreShort asked.now.corners }
    ensures value { IfOk result (λ b. b ≡ box_of asked.now.corners) }
    ensures inside { OnOk result (bad_view asked.now problem.now ≡ None) }
    ensures outside { IfErr result (λ part. bad_view asked.now problem.now ≡ Some part) }
{
    if problem.max_level < asked.level {
        return Err(ViewPart::Level);
    }
    match box_in(problem.domain(asked.level), asked.corners) {
        Some(b) => {
            if asked.species < problem.species {
                Ok(b)
            } else {
                Err(ViewPart::Species)
            }
        }
        None => Err(ViewPart::Box),
    }
}

impl From<ViewPart> for Status {
    ghost use Rattle.amr_run.specs.declared.status.Status.TheVariants.{BadView};

    ghost from_gives = { λ part status. status ≡ BadView part };

    fn from(part: ViewPart) -> Self {
        Status::BadView(part)
    }
}

/// The command `view`: the rows of a box after the last step of the run of the problem on the source, by the finest masses of a species that are
/// known there; or the status that refuses it.
pub(crate) fn view<R: Threads + Wait + Sync, S: Source, O: Sink, G: Gate + Sync>(
    workers: &Workshop<'_, R, G>,
    asked: &ViewOptions,
    src: &mut S,
    out: &mut O,
) -> Result<(), Status>
    requires level { asked.now.level ≤ 4 }
    requires short { AreShort asked.now.corners }
    requires some_workers { 1 ≤ workers.now.count }
    requires few_workers { workers.now.count ≤ 64 }
    requires gate { (worker task : ℕ) → worker < workers.now.count → G.admits workers.now.gate.now worker task }
    ensures outcome { (bytes : List ℕ) × ((sent : List ℕ) × WereLeft (S.left src.old) bytes
        × Grows O.holds out.old out.new sent × ((seen : Option (List ℕ)) → RepliesBy (view_row asked.now) (status_of result) bytes seen sent [])) }
    ensures ended { OnOk result (IsAtEnd (S.left src.new)) }
    ensures taken { TakesAtMost 65537 (S.left src.old) (S.left src.new) }
    ensures refused { IfErr result (λ status. status ≢ Status.Done) }
    ensures read_fault { result ≡ Err Status.ReadFault → Rose (S.faults src.old) (S.faults src.new) }
    ensures no_read_fault { result ≢ Err Status.ReadFault → S.faults src.new ≡ S.faults src.old }
    ensures write_fault { result ≡ Err Status.WriteFault → Rose (O.faults out.old) (O.faults out.new) }
    ensures no_write_fault { result ≢ Err Status.WriteFault → O.faults out.new ≡ O.faults out.old }
{
    let given = read_problem(workers.alloc, src)?;
    let b = seen_box(&given.problem, asked)?;
    let flock = run_to(workers, &given.problem, given.problem.steps)?;
    let mesh = mesh_of(&given.problem, &flock, asked.species);
    amr_view::view(&given.problem, mesh, asked.level, b, out)?;
    Ok(())
}
