//! Whole texts of trials, worked out by another program from the generator's three lines.

use amr_trial::text;
use std::test::Fail;

const NUMBER_0: &str = "version = 1
name = \"trial-0-64\"
cells = [64, 64]
steps = 16
courant = [2, 0, 8]
sides = [-1, -1, 0, 0]
max_level = 2
tag = [64, 16]
max_grid_size = 16
blocks = [[17, 52, 30, 63, 2488], [7, 32, 18, 47, 1746], [6, 61, 10, 63, 1353], [18, 27, 21, 41, 821], [15, 42, 28, 53, 1649], \
    [23, 19, 37, 28, 2128], [26, 36, 27, 47, 2066], [23, 48, 29, 48, 2331]]
";

const NUMBER_1: &str = "version = 1
name = \"trial-1-64\"
cells = [64, 64]
steps = 16
courant = [4, 1, 8]
sides = [-1, -1, 0, 0]
max_level = 2
tag = [64, 16]
max_grid_size = 16
blocks = [[12, 38, 22, 41, 2714], [54, 41, 63, 52, 1266], [60, 32, 63, 44, 1306], [31, 20, 36, 31, 3469], [30, 34, 43, 34, 3876], \
    [32, 17, 32, 32, 1298], [28, 5, 42, 15, 714], [42, 28, 55, 43, 3556]]
";

#[test]
fn texts_of_numbers_0_and_1(rt: HostRuntime) -> Result<(), Fail> {
    for (number, want) in [(0, NUMBER_0), (1, NUMBER_1)] {
        let bytes = text(rt.alloc(), number, 64)?;
        assert_eq!(rt; bytes.as_slice(), want.as_bytes());
    }
    Ok(())
}
