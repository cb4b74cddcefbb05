//! The faces of a cell, and the child faces of a face.

ghost use Rattle.std.specs.Prelude.{◌≡◌, ◌≤◌, pos};
ghost use Rattle.amr_def.specs.Flux.{face, high_cell};
ghost use Rattle.amr_witness.specs.Ready.{IsNearby};
ghost use Rattle.amr_witness.specs.Parts.{east_face, high_child, low_child, north_face, south_face, west_face};

use amr_box::{Axis, Cell, Face};

pub fn face_at(axis: Axis, x: u32, y: u32) -> Face
    requires x { x ≤ 4096 }
    requires y { y ≤ 4096 }
    ensures { result ≡ face axis (pos x) (pos y) }
{
    Face {
        axis,
        x: x as i32,
        y: y as i32,
    }
}

pub fn west_face(c: Cell) -> Face
    ensures { result ≡ west_face c }
{
    Face {
        axis: Axis::X,
        x: c.x,
        y: c.y,
    }
}

pub fn east_face(c: Cell) -> Face
    requires { IsNearby c }
    ensures { result ≡ east_face c }
{
    Face {
        axis: Axis::X,
        x: c.x + 1,
        y: c.y,
    }
}

pub fn south_face(c: Cell) -> Face
    ensures { result ≡ south_face c }
{
    Face {
        axis: Axis::Y,
        x: c.x,
        y: c.y,
    }
}

pub fn north_face(c: Cell) -> Face
    requires { IsNearby c }
    ensures { result ≡ north_face c }
{
    Face {
        axis: Axis::Y,
        x: c.x,
        y: c.y + 1,
    }
}

/// The child face with the lower coordinates.
pub fn low_child(f: Face) -> Face
    requires { IsNearby (high_cell f) }
    ensures { result ≡ low_child f }
{
    Face {
        axis: f.axis,
        x: f.x + f.x,
        y: f.y + f.y,
    }
}

/// The child face with the higher coordinates.
pub fn high_child(f: Face) -> Face
    requires { IsNearby (high_cell f) }
    ensures { result ≡ high_child f }
{
    match f.axis {
        Axis::X => Face {
            axis: Axis::X,
            x: f.x + f.x,
            y: f.y + f.y + 1,
        },
        Axis::Y => Face {
            axis: Axis::Y,
            x: f.x + f.x + 1,
            y: f.y + f.y,
        },
    }
}
