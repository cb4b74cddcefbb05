//! What a state is written on, and the form of the masses of its levels.

ghost use Rattle.std.specs.Prelude.{◌≡◌, length};
ghost use Rattle.amr_codec.specs.Forms.{IsBasisOf, basis_of, form_of};

use crate::numbers::MassWidth;
use amr_def::Problem;
use amr_patch::{Level, Mesh};

/// How the masses of a level are written.
#[derive(Clone, Copy)]
pub enum Form<'a> {
    /// All of them, each of a width.
    Whole(MassWidth),
    /// Those of rows of boxes that changed. The level is that of the older state, None where it has no such level.
    Changed(Option<&'a Level>),
}

/// What a state is written on.
#[derive(Clone, Copy)]
pub enum Basis<'a> {
    /// Nothing: all its rows of the ledger and all its masses are written, each mass of a width.
    Alone(MassWidth),
    /// An older state: the rows of the ledger after those of it are written, and the masses of rows of boxes that changed.
    Older(&'a Mesh),
}

/// How many rows of the ledger stand already.
pub fn rows_before(p: &Problem, basis: &Basis<'_>) -> u32
    requires { IsBasisOf p.now basis.now }
    ensures { result ≡ length (basis_of basis.now).rows }
{
    match basis {
        Basis::Alone(_) => 0,
        Basis::Older(mesh) => mesh.step() + 1,
    }
}

/// The form of the masses of level `l`.
pub fn form_at<'a>(p: &Problem, basis: &Basis<'a>, l: u32) -> Form<'a>
    requires { IsBasisOf p.now basis.now }
    ensures { form_of result ≡ (basis_of basis.now).forms l }
{
    match basis {
        Basis::Alone(width) => Form::Whole(*width),
        Basis::Older(mesh) => Form::Changed(mesh.levels().get(l as usize)),
    }
}
