//! Batches of problems.

use crate::cases::{Case, RING, RING_PLOT};
use std::alloc::Global;
use std::fmt::Write as _;
use std::process::Abort;
use std::sync::Wait;
use std::test::Fail;
use std::thread::Threads;

/// The line of the first fault of no bytes.
const NO_VERSION: &str = "amr: problem: missing key version\n";

/// A batch of these jobs.
pub(crate) fn batch_of(alloc: Global, jobs: &[&str]) -> Result<String, Fail> {
    let mut text = String::new(alloc);
    for job in jobs {
        write!(text, "job {}\n{}", job.len(), *job)?;
    }
    Ok(text)
}

/// The answer with these replies.
pub(crate) fn replies(alloc: Global, replies: &[(u32, &str)]) -> Result<String, Fail> {
    let mut text = String::new(alloc);
    for (number, reply) in replies.iter().enumerate() {
        let (status, answer) = *reply;
        write!(text, "reply {number} {status} {}\n{answer}", answer.len())?;
    }
    write!(text, "end\n")?;
    Ok(text)
}

/// How a batch ends, with one worker and with eight.
fn ends<R: Abort + Alloc<A = Global> + Threads + Wait + Sync>(
    rt: &R,
    bytes: &[u8],
    status: u8,
    out: &str,
    err: &str,
) {
    for words in ["batch", "batch --workers 8"] {
        Case::of(words, bytes).ends(rt, status, out, err);
    }
}

#[test]
fn the_ring_and_few_bytes(rt: HostRuntime) -> Result<(), Fail> {
    let batch = format!(in rt.alloc(); "job 137\n{RING}")?;
    let answer = format!(in rt.alloc(); "reply 0 0 100\n{RING_PLOT}end\n")?;
    let line = "reply 0 3 34\namr: problem: missing key version\nend\n";
    for (bytes, out) in [
        (batch.as_str(), answer.as_str()),
        ("", "end\n"),
        ("job 0\n", line),
    ] {
        ends(&rt, bytes.as_bytes(), 0, out, "");
    }
    Ok(())
}

/// More jobs than workers, of both kinds.
#[test]
fn nine_jobs(rt: HostRuntime) -> Result<(), Fail> {
    let alloc = rt.alloc();
    let batch = batch_of(alloc, &[RING, "", RING, RING, "", RING, RING, RING, ""])?;
    let (plot, line) = ((0, RING_PLOT), (3, NO_VERSION));
    let answer = replies(
        alloc,
        &[plot, line, plot, plot, line, plot, plot, plot, line],
    )?;
    ends(&rt, batch.as_bytes(), 0, answer.as_str(), "");
    Ok(())
}

/// Bytes that are no batch, and their places.
const MALFORMED: [(&str, u32); 6] = [
    ("job 0\nx", 6),
    ("job 00\n", 0),
    ("job 65537\n", 0),
    ("job 18446744073709551616\n", 0),
    ("job 1\nxjob 2\nx", 7),
    ("job 1", 0),
];

#[test]
fn malformed(rt: HostRuntime) -> Result<(), Fail> {
    let alloc = rt.alloc();
    for (text, place) in MALFORMED {
        let line = format!(in alloc; "amr: batch malformed at {place}\n")?;
        ends(&rt, text.as_bytes(), 8, "", line.as_str());
    }
    let mut batch = String::new(alloc);
    for _ in 0..257 {
        batch.push_str("job 0\n")?;
    }
    ends(
        &rt,
        batch.as_bytes(),
        8,
        "",
        "amr: batch malformed at 1536\n",
    );
    let long = vec![in alloc; b'x'; 1_048_577]?;
    ends(&rt, &long, 8, "", "amr: batch malformed at 1048576\n");
    Ok(())
}

/// A source that fails comes before what its bytes are, and nothing is written then. A sink that fails has the first bytes.
#[test]
fn faults_of_the_outside(rt: HostRuntime) {
    let mut case = Case::of("batch", b"job 00\n");
    case.reads_fail = &[2];
    case.ends(&rt, 4, "", "amr: read failed\n");
    let mut case = Case::of("batch", b"job 0\n");
    case.writes_fail = &[2];
    case.ends(&rt, 5, "reply 0 3 34\n", "amr: write failed\n");
}
