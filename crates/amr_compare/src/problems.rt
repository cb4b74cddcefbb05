//! Problems that are drawn, as text. What is drawn is judged, and may be refused.

ghost use Rattle.std.specs.Prelude.{◌≤◌, ◌<◌};

use amr_trial::Generator;
use std::alloc::Global;
use std::test::Fail;

/// A number from `low` to `high`.
pub(crate) fn between(g: &mut Generator, low: u32, high: u32) -> u32
    requires order { low ≤ high }
    requires small { high ≤ 64 }
    ensures least { low ≤ result }
    ensures most { result ≤ high }
{
    low + g.draw(high - low + 1)
}

/// A number from `-size` to `size`.
fn signed(g: &mut Generator, size: u32) -> i32
    requires { size ≤ 16 }
{
    let number = between(g, 0, size) as i32;
    if g.draw(2) == 0 { number } else { -number }
}

/// So many Courant numbers under a key, or no line.
fn shear(alloc: Global, g: &mut Generator, key: &str, size: u32, count: u32) -> Result<String, Fail>
    requires { size ≤ 16 }
{
    let mut line = String::new(alloc);
    if g.draw(2) == 0 {
        return Ok(line);
    }
    write!(line, "{key} = [")?;
    for _ in 0..count {
        let number = signed(g, size);
        write!(line, "{number}, ")?;
    }
    write!(line, "]\n")?;
    Ok(line)
}

/// The two sides of an axis.
fn sides(alloc: Global, g: &mut Generator) -> Result<String, Fail> {
    if g.draw(2) == 0 {
        return Ok(format!(in alloc; "-1, -1")?);
    }
    let low = g.draw(1000);
    let high = g.draw(1_073_741_824);
    Ok(format!(in alloc; "{low}, {high}")?)
}

/// How wide blocks are: least where there are many levels.
fn blocking(g: &mut Generator, levels: u32) -> u32
    ensures { result ≤ 8 }
{
    if levels > 3 {
        return 2;
    }
    match g.draw(3) {
        0 => 2,
        1 => 4,
        _ => 8,
    }
}

/// How many columns or rows there are: fewer where there are more levels, since the witness takes long then.
fn length(g: &mut Generator, levels: u32, blocking: u32) -> u32
    requires { blocking ≤ 8 }
{
    let most = match levels {
        1 => 20,
        2 => 8,
        _ => 3,
    };
    between(g, 1, most) * (blocking / 2)
}

/// A problem of so many levels, whose Courant numbers add up to at most 1.
pub(crate) fn problem_text(alloc: Global, g: &mut Generator, levels: u32) -> Result<String, Fail> {
    let blocking = blocking(g, levels);
    let (nx, ny) = (length(g, levels, blocking), length(g, levels, blocking));
    let d = between(g, 1, 9);
    let most = between(g, 0, d);
    let (cx, cy) = (signed(g, most), signed(g, d - most));
    let shear_x = shear(alloc, g, "shear_x", most, ny)?;
    let shear_y = shear(alloc, g, "shear_y", d - most, nx)?;
    let (x_sides, y_sides) = (sides(alloc, g)?, sides(alloc, g)?);
    let grid = 2 * between(g, 2, 16);
    let finer = levels.saturating_sub(1);
    let mut text = format!(in alloc; "version = 2\nname = \"drawn\"\ncells = [{nx}, {ny}]\n")?;
    write!(text, "steps = 2\ncourant = [{cx}, {cy}, {d}]\n")?;
    write!(text, "{shear_x}{shear_y}sides = [{x_sides}, {y_sides}]\n")?;
    write!(text, "max_level = {finer}\ntag = [")?;
    for _ in 0..finer {
        write!(text, "1, ")?;
    }
    write!(
        text,
        "]\nmax_grid_size = {grid}\nblocking = {blocking}\nblocks = []\n"
    )?;
    Ok(text)
}
