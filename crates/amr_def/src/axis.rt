//! An axis of a domain: its cells have the coordinates from 0 on, and it is periodic or open.

ghost use Rattle.std.specs.Prelude.{◌≡◌, ◌<◌, ◌≤◌};
ghost use Rattle.amr_def.specs.Domain.{is_inside, wrapped};

/// Whether a coordinate is one of `n` cells, for `n` up to 4096.
pub fn is_inside(n: u32, z: i32) -> bool
    requires { n ≤ 4096 }
    ensures { result ≡ is_inside n z }
{
    0 <= z && z < n as i32
}

/// A coordinate of an axis of `n` cells, 1 to 4096, taken modulo `n` where the axis is periodic. Most are inside, and take no
/// division.
pub fn wrapped(wrap: bool, n: u32, z: i32) -> i32
    requires some { 0 < n }
    requires few { n ≤ 4096 }
    ensures { result ≡ wrapped wrap n z }
{
    if is_inside(n, z) {
        return z;
    }
    if wrap { z.rem_euclid(n as i32) } else { z }
}
