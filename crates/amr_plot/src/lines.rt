//! The lines between the rows of masses, as fragments.

ghost use Rattle.std.specs.Prelude.{◌≡◌, ◌≤ℤ◌, pos, true};
ghost use Rattle.amr_def.specs.Plot.{box_line, head_text, ledger_line, species_line};
ghost use Rattle.amr_io.specs.Buffered.{fragments_text};
ghost use Rattle.amr_plot.specs.Layers.{IsLayerBox, IsLayer};
ghost use Rattle.amr_plot.specs.Texts.{level_head};

use crate::layer::Layer;
use amr_box::Bx;
use amr_def::{Problem, Row};
use amr_io::Fragment;
use std::str;

/// The head: the format, the name of the problem and the step.
pub(crate) fn head(p: &Problem, step: u32) -> [Fragment<'_>; 7]
    ensures { fragments_text result ≡ head_text p.now step }
{
    let format = if p.version >= 3 { "2" } else { "1" };
    match str::from_utf8(p.name.bytes()) {
        Ok(name) => [
            Fragment::Str("amr-plot "),
            Fragment::Str(format),
            Fragment::Str("\nname "),
            Fragment::Str(name),
            Fragment::Str("\nstep "),
            Fragment::Number(u64::from(step)),
            Fragment::Str("\n"),
        ],
        Err(_) => unreachable!(),
    }
}

/// The line of row `k` of a species' ledger, which has the species' number where plots name species.
pub(crate) fn ledger_row(named: bool, k: u32, species: usize, row: Row) -> [Fragment<'static>; 11]
    ensures { fragments_text result ≡ ledger_line named k species row }
{
    let number = if named {
        [Fragment::Str(" "), Fragment::Number(species as u64)]
    } else {
        [Fragment::Str(""), Fragment::Str("")]
    };
    let [gap, species] = number;
    [
        Fragment::Str("ledger "),
        Fragment::Number(u64::from(k)),
        gap,
        species,
        Fragment::Str(" "),
        Fragment::Number(row.mass),
        Fragment::Str(" "),
        Fragment::Number(row.inflow),
        Fragment::Str(" "),
        Fragment::Number(row.outflow),
        Fragment::Str("\n"),
    ]
}

/// The line before a species' rows of a box.
pub(crate) fn species_row(species: usize) -> [Fragment<'static>; 3]
    ensures { fragments_text result ≡ species_line true species }
{
    [
        Fragment::Str("species "),
        Fragment::Number(species as u64),
        Fragment::Str("\n"),
    ]
}

/// The line of level `l`, which has so many boxes.
pub(crate) fn level_row(l: u32, boxes: usize) -> [Fragment<'static>; 5]
    ensures { fragments_text result ≡ level_head l boxes }
{
    [
        Fragment::Str("level "),
        Fragment::Number(u64::from(l)),
        Fragment::Str(" "),
        Fragment::Number(boxes as u64),
        Fragment::Str("\n"),
    ]
}

/// A coordinate that is not below 0.
fn number(z: i32) -> u64
    requires { pos 0 ≤ℤ z }
    ensures { pos result ≡ z }
{
    z as u64
}

/// The line of a box of a level, in the domain.
pub(crate) fn box_row(layer: Layer<'_>, b: &Bx) -> [Fragment<'static>; 9]
    requires layer { IsLayer layer }
    requires of_layer { IsLayerBox layer b.now }
    ensures { fragments_text result ≡ box_line b.now }
{
    let lo = b.lo();
    let hi = b.hi();
    [
        Fragment::Str("box "),
        Fragment::Number(number(lo.x)),
        Fragment::Str(" "),
        Fragment::Number(number(lo.y)),
        Fragment::Str(" "),
        Fragment::Number(number(hi.x)),
        Fragment::Str(" "),
        Fragment::Number(number(hi.y)),
        Fragment::Str("\n"),
    ]
}
