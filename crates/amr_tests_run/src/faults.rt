//! The text of each refusal that needs no store, and the trial, which reads nothing.

use crate::cases::{Case, RING, RING_PLOT, ring_with};
use std::test::Fail;

const USAGE: &str =
    "amr: usage: run [--workers W] [--to K] [--keep E] [--deltas D] | check | show | trial NUMBER SIZE [--workers W] | batch [--workers W] \
    | view LEVEL X0 Y0 X1 Y1 [--species S] [--workers W]\n";

const TRIAL: &str =
    "trial 1 64 step 16 levels 3 boxes 16 mass 1501170 sha256 b10ee6787cb6ad3e832772c1cd56fc3516691143d250f1d82867fbe5b0a60a5d\n";

/// The line of a trial, by any number of workers. It reads no source.
#[test]
fn a_trial(rt: HostRuntime) {
    for words in [
        "trial 1 64 --workers 1",
        "trial 1 64 --workers 2",
        "trial 1 64 --workers 64",
    ] {
        let mut case = Case::of(words, b"");
        case.reads_fail = &[1];
        case.ends(&rt, 0, TRIAL, "");
    }
}

#[test]
fn words_that_are_no_command(rt: HostRuntime) {
    for words in [
        "",
        "help",
        "check x",
        "check --workers 1",
        "run ",
        "run run",
        "run --help",
        "run --workers 0",
        "run --workers 65",
        "run --keep 0",
        "run --keep 4097",
        "show x",
        "trial 1 7",
        "batch 1",
        "batch --workers 65",
        "view 0 0 0 1",
        "view 5 0 0 1 1",
        "view 0 0 0 1 4096",
        "view 0 0 0 1 1 --species 4",
    ] {
        Case::of(words, RING.as_bytes()).ends(&rt, 2, "", USAGE);
    }
}

/// A plot that goes out 16 bytes at a time and whose second write fails. A source that fails at once or at its end. A
/// line whose second write fails.
#[test]
fn faults_of_the_outside(rt: HostRuntime) {
    let ring = Case::run(RING.as_bytes());
    let mut case = ring;
    case.writes_fail = &[2];
    case.ends(&rt, 5, "amr-plot 1\nname ", "amr: write failed\n");
    case.words = "check";
    case.writes_fail = &[1];
    case.ends(&rt, 5, "", "amr: write failed\n");
    for call in 1..=2 {
        let mut case = ring;
        let fails = [call];
        case.reads_fail = &fails;
        case.ends(&rt, 4, "", "amr: read failed\n");
    }
    let mut case = ring;
    case.words = "help";
    case.lines_fail = &[2];
    case.ends(&rt, 2, "", "amr: usage: run [--workers W] [--to K] [");
}

/// Lines for the ring, each in the place of the one with its key (a key alone takes its line away), and what is said of the problem
/// then.
const FAULTS: &str = "version|missing key version
blocks|missing key blocks
name = 1|wrong kind name
cells = [4]|wrong kind cells
max_level = false|wrong kind max_level
blocks = [[0, 0, 0, 8]]|wrong kind blocks
version = 4|out of range version 4
version = 3|wrong kind blocks
name = \"\"|out of range name 0
name = \"Ring\"|out of range name 4
cells = [4, 257]|out of range cells 257
steps = -1|out of range steps -1
steps = 4097|out of range steps 4097
sides = [-1, -1, -2, -1]|out of range sides -2
max_level = 5|out of range max_level 5
steps = 1;max_grid_size = 5|out of range max_grid_size 5
blocks = [[0, 0, 0, 0, 1073741825]]|out of range blocks 1073741825
courant = [3, 2, 4]|courant 5 over 4
courant = [-1024, 0, 1023]|courant 1024 over 1023
sides = [-1, 0, -1, -1]|sides differ x
sides = [-1, -1, 0, -1]|sides differ y
blocks = [[0, 0, 4, 0, 8]]|block 0 outside
blocks = [[0, 0, 0, 0, 8], [1, 0, 0, 0, 8]]|block 1 outside
max_level = 0;tag = [4, 2]|2 tags for 0 levels
max_level = 0;efficiency = 101|out of range efficiency 101
version = 1;shear_x = [1, 1]|unknown key shear_x
version = 1;blocking = 2|unknown key blocking
version = 2;blocking = 8|blocking 8 does not fit y
version = 2;shear_x = [1, -3]|courant 3 over 2
steps = 1;zebra = 1;alpha = 1|unknown key alpha
steps = 1;steps = 1|not TOML
steps =|not TOML";

#[test]
fn faults_of_the_problem(rt: HostRuntime) -> Result<(), Fail> {
    let alloc = rt.alloc();
    for row in FAULTS.lines() {
        let (lines, fault) = row.split_once('|').unwrap_or((row, ""));
        let text = ring_with(alloc, lines)?;
        let line = format!(in alloc; "amr: problem: {fault}\n")?;
        Case::run(text.as_bytes()).ends(&rt, 3, "", line.as_str());
        Case::of("check", text.as_bytes()).ends(&rt, 3, "", line.as_str());
    }
    Ok(())
}

#[test]
fn bytes_that_are_no_text(rt: HostRuntime) {
    Case::run(b"").ends(&rt, 3, "", "amr: problem: missing key version\n");
    Case::run(b"name = \"\xff\"").ends(&rt, 3, "", "amr: problem: not TOML\n");
}

#[test]
fn too_long_by_one_byte(rt: HostRuntime) -> Result<(), Fail> {
    let mut text = Vec::from_slice(rt.alloc(), RING.as_bytes())?;
    text.push(b'#')?;
    text.resize(65_536, b'x')?;
    Case::run(&text).ends(&rt, 0, RING_PLOT, "");
    text.push(b'x')?;
    Case::run(&text).ends(&rt, 3, "", "amr: problem: too long\n");
    Ok(())
}
