//! Which texts are accepted and which refused: each fault, and the ends of each range.

use amr_problem::{JudgeFault, ProblemFault, judge};
use std::alloc::Global;
use std::fmt::Write as _;
use std::test::Fail;

const RING: &str = "version = 1
name = \"ring\"
cells = [4, 2]
steps = 1
courant = [1, 1, 4]
sides = [-1, -1, -1, -1]
max_level = 0
blocks = [[0, 0, 0, 0, 8]]
";

/// Lines for the ring, each in the place of the one with its key (a key alone takes its line away), and the verdict.
const TABLE: &str = "version|Missing(Version)
name|Missing(Name)
cells|Missing(Cells)
steps|Missing(Steps)
courant|Missing(Courant)
sides|Missing(Sides)
max_level|Missing(MaxLevel)
blocks|Missing(Blocks)
version;name = 7|Missing(Version)
version = \"1\"|WrongKind(Version)
name = 7|WrongKind(Name)
cells = 4|WrongKind(Cells)
cells = [4]|WrongKind(Cells)
cells = [4, 2, 2]|WrongKind(Cells)
cells = [1, 2.0]|WrongKind(Cells)
steps = 1.0|WrongKind(Steps)
steps = -1;courant = 4|WrongKind(Courant)
sides = [-1, -1, -1]|WrongKind(Sides)
max_level = [0]|WrongKind(MaxLevel)
tag = 1|WrongKind(Tag)
tag = [[1]]|WrongKind(Tag)
tag = [1, 1.0]|WrongKind(Tag)
n_error_buf = [1]|WrongKind(NErrorBuf)
efficiency = true|WrongKind(Efficiency)
min_width = \"\"|WrongKind(MinWidth)
regrid_int = {}|WrongKind(RegridInt)
max_grid_size = \"4\"|WrongKind(MaxGridSize)
blocks = {}|WrongKind(Blocks)
blocks = [0, 0, 0, 0, 8]|WrongKind(Blocks)
blocks = [[0, 0, 0, 0]]|WrongKind(Blocks)
blocks = [[0, 0, 0, 0, true]]|WrongKind(Blocks)
version = 0|OutOfRange(Version, 0)
version = 2|accepted
version = 4|OutOfRange(Version, 4)
name = \"\"|OutOfRange(Name, 0)
name = \"r\"|accepted
name = \"az-09_aaaaaaaaaaaaaaaaaaaaaaaaaa\"|accepted
name = \"aaaaaaaaaaaaaaaaaaaaaaaaaaaaaaaaa\"|OutOfRange(Name, 33)
name = \"Ring\"|OutOfRange(Name, 4)
name = \"r g\"|OutOfRange(Name, 3)
cells = [1, 2]|OutOfRange(Cells, 1)
cells = [2, 2]|accepted
cells = [256, 256]|accepted
cells = [257, 1]|OutOfRange(Cells, 257)
cells = [4, 1]|OutOfRange(Cells, 1)
cells = [4, 257]|OutOfRange(Cells, 257)
steps = -1;courant = [9, 9, 4]|OutOfRange(Steps, -1)
steps = 0|accepted
steps = 4096|accepted
steps = 4097|OutOfRange(Steps, 4097)
courant = [-1025, 0, 1024]|OutOfRange(Courant, -1025)
courant = [-1024, 0, 1024]|accepted
courant = [1025, 0, 1024]|OutOfRange(Courant, 1025)
courant = [0, -1025, 1024]|OutOfRange(Courant, -1025)
courant = [0, 1024, 1024]|accepted
courant = [0, 1025, 1024]|OutOfRange(Courant, 1025)
courant = [0, 0, 0]|OutOfRange(Courant, 0)
courant = [0, 0, 1]|accepted
courant = [0, 0, 1025]|OutOfRange(Courant, 1025)
sides = [-2, -1, -1, -1]|OutOfRange(Sides, -2)
sides = [-1, -1, -1, -2]|OutOfRange(Sides, -2)
sides = [0, 1073741825, -1, -1]|OutOfRange(Sides, 1073741825)
sides = [0, 1073741824, -1, -1]|accepted
sides = [-1, -1, 1073741824, 0]|accepted
max_level = -1|OutOfRange(MaxLevel, -1)
max_level = 1;tag = [1]|accepted
max_level = 4;tag = [1, 1, 1, 1073741824]|accepted
cells = [2, 2];steps = 0;courant = [0, 0, 1];max_level = 5;tag = [1, 1]|OutOfRange(MaxLevel, 5)
n_error_buf = 9;tag = [1, 0]|OutOfRange(Tag, 0)
tag = [1073741825]|OutOfRange(Tag, 1073741825)
n_error_buf = -1|OutOfRange(NErrorBuf, -1)
n_error_buf = 9|OutOfRange(NErrorBuf, 9)
efficiency = 0|OutOfRange(Efficiency, 0)
efficiency = 101|OutOfRange(Efficiency, 101)
min_width = 0|OutOfRange(MinWidth, 0)
min_width = 17|OutOfRange(MinWidth, 17)
regrid_int = 0|OutOfRange(RegridInt, 0)
regrid_int = 4097|OutOfRange(RegridInt, 4097)
max_grid_size = 2|OutOfRange(MaxGridSize, 2)
blocks = [[-1, 0, 0, 0, 8]];max_grid_size = 5|OutOfRange(MaxGridSize, 5)
max_grid_size = 258|OutOfRange(MaxGridSize, 258)
n_error_buf = 0;efficiency = 1;min_width = 1;regrid_int = 1;max_grid_size = 4|accepted
n_error_buf = 8;efficiency = 100;min_width = 16;regrid_int = 4096;max_grid_size = 256|accepted
blocks = [[-1, 0, 0, 0, 8]]|OutOfRange(Blocks, -1)
blocks = [[0, 0, 0, 256, 8]]|OutOfRange(Blocks, 256)
blocks = [[0, 0, 0, 0, -1]]|OutOfRange(Blocks, -1)
blocks = [[9, 0, 0, 0, 1073741825]]|OutOfRange(Blocks, 1073741825)
blocks = [[0, 0, 3, 1, 1073741824], [0, 0, 0, 0, 0]]|accepted
blocks = []|accepted
courant = [3, 2, 4];sides = [-1, -1, -1, 1073741825]|OutOfRange(Sides, 1073741825)
courant = [3, 2, 4];sides = [-1, 0, -1, -1]|Courant(5, 4)
courant = [-3, 2, 4]|Courant(5, 4)
courant = [2, -2, 4]|accepted
sides = [-1, 0, 0, -1];blocks = [[9, 0, 9, 0, 8]]|SidesDiffer(X)
sides = [0, -1, -1, -1]|SidesDiffer(X)
sides = [-1, -1, -1, 0]|SidesDiffer(Y)
sides = [0, 0, 7, -1]|SidesDiffer(Y)
sides = [0, 0, 0, 0];blocks = [[1, 0, 0, 0, 8]];tag = [1]|BlockOutside(0)
blocks = [[0, 1, 0, 0, 8]]|BlockOutside(0)
blocks = [[0, 0, 4, 0, 8]]|BlockOutside(0)
blocks = [[0, 0, 0, 0, 8], [0, 0, 0, 2, 8]]|BlockOutside(1)
tag = [4]|TagCount(1, 0)
max_level = 2;tag = [4]|TagCount(1, 2)
version =|NotToml
version = 1;version = 1|NotToml
version;vers = 1|UnknownKey(vers)
tap = [];blank = 0|UnknownKey(blank)
shear_x = [1, 1]|UnknownKey(shear_x)
shear_y = [1, 1, 1, 1]|UnknownKey(shear_y)
version;blocking = 2|UnknownKey(blocking)
version = 4;blocking = 2|UnknownKey(blocking)
version = 2.0;blocking = 2|UnknownKey(blocking)
version = 2;shear_x = []|WrongKind(ShearX)
version = 2;shear_x = [1, 1]|accepted
version = 2;shear_x = [1, 1, 1, 1]|WrongKind(ShearX)
version = 2;shear_x = 1|WrongKind(ShearX)
version = 2;shear_x = [1, 1.0]|WrongKind(ShearX)
version = 2;shear_y = [1, 1, 1, 1]|accepted
version = 2;shear_y = [1, 1]|WrongKind(ShearY)
version = 2;cells = [4, 1];shear_x = [1]|OutOfRange(Cells, 1)
version = 2;cells = [4, 2.0];shear_x = [1]|WrongKind(Cells)
version = 2;shear_x = [1024, -1025]|OutOfRange(ShearX, -1025)
version = 2;shear_y = [0, 0, 0, 1025]|OutOfRange(ShearY, 1025)
version = 2;blocking = [2]|WrongKind(Blocking)
version = 2;blocking = 1|OutOfRange(Blocking, 1)
version = 2;blocking = 2;cells = [3, 3];blocks = []|accepted
version = 2;blocking = 4|accepted
version = 2;blocking = 6|OutOfRange(Blocking, 6)
version = 2;blocking = 8;cells = [8, 4]|accepted
version = 2;blocking = 16|OutOfRange(Blocking, 16)
version = 2;blocking = 8;tag = [1]|TagCount(1, 0)
version = 2;blocking = 8|Blocking(Y, 8)
version = 2;blocking = 4;cells = [3, 2]|Blocking(X, 4)
version = 2;blocking = 4;cells = [3, 3]|Blocking(X, 4)
version = 2;courant = [0, 0, 2];shear_x = [1, -1]|accepted
version = 2;courant = [0, 0, 2];shear_x = [1, -3]|Courant(3, 2)
version = 2;shear_x = [1, -4]|Courant(5, 4)
version = 2;shear_y = [0, -4, 1, 0]|Courant(5, 4)
version = 2;courant = [9, 9, 4];shear_x = [1, 2];shear_y = [2, 1, 0, -2]|accepted
version = 2;species = 1|UnknownKey(species)
version = 4;species = 1|UnknownKey(species)
version = 2;blocks = [[0, 0, 0, 0, 8, 0]]|WrongKind(Blocks)
version = 3|WrongKind(Blocks)
version = 3;blocks = [[0, 0, 0, 0, 8, 0]];blocking = 4;shear_x = [1, 1]|accepted
version = 3;blocks = [[0, 0, 0, 0, 8, 0, 0]]|WrongKind(Blocks)
version = 3;blocks = [];species = [1]|WrongKind(Species)
version = 3;blocks = [];species = 0|OutOfRange(Species, 0)
version = 3;blocks = [];species = 5|OutOfRange(Species, 5)
version = 3;species = 4;blocks = [[0, 0, 0, 0, 8, 3], [0, 0, 0, 0, 8, 0]]|accepted
version = 3;species = 4;blocks = [[0, 0, 0, 0, 8, 4]]|OutOfRange(Blocks, 4)
version = 3;blocks = [[0, 0, 0, 0, 8, -1]]|OutOfRange(Blocks, -1)
version = 3;blocks = [[0, 0, 0, 0, 8, 1]]|SpeciesOutside(0, 1)
version = 3;species = 2;blocks = [[0, 0, 0, 0, 8, 1], [0, 0, 0, 0, 8, 3], [0, 0, 0, 0, 8, 2]]|SpeciesOutside(1, 3)
version = 3;blocking = 8;blocks = [[0, 0, 0, 0, 8, 1]]|Blocking(Y, 8)";

fn key_of(line: &str) -> &str {
    line.split(' ').next().unwrap_or("")
}

/// The ring with these lines, parted by semicolons, in the place of those with their keys.
fn ring_with(alloc: Global, lines: &str) -> Result<String, Fail> {
    let mut text = String::new(alloc);
    for old in RING.lines() {
        let mut stays = true;
        for line in lines.split(';') {
            stays = stays && key_of(line) != key_of(old);
        }
        if stays {
            write!(text, "{old}\n")?;
        }
    }
    for line in lines.split(';') {
        if line.contains('=') {
            write!(text, "{line}\n")?;
        }
    }
    Ok(text)
}

/// The fault of bytes; `accepted` where they have none.
fn verdict(alloc: Global, bytes: &[u8]) -> Result<String, Fail> {
    match judge(alloc, bytes) {
        Ok(_) => Ok(String::from_str(alloc, "accepted")?),
        Err(JudgeFault::Fault(ProblemFault::UnknownKey(key))) => {
            Ok(format!(in alloc; "UnknownKey({})", key.text())?)
        }
        Err(JudgeFault::Fault(fault)) => Ok(format!(in alloc; "{fault:?}")?),
        Err(JudgeFault::NoMemory) => Ok(String::from_str(alloc, "no memory")?),
    }
}

#[test]
fn each_fault_comes_where_it_applies(rt: HostRuntime) -> Result<(), Fail> {
    let alloc = rt.alloc();
    for row in TABLE.lines() {
        let (lines, want) = row.split_once('|').unwrap_or((row, ""));
        let text = ring_with(alloc, lines)?;
        let told = verdict(alloc, text.as_bytes())?;
        assert_eq!(rt; told.as_str(), want, "{text}");
    }
    Ok(())
}
