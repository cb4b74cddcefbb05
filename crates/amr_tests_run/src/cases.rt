//! What the tests share: calls on objects in memory, and problems.

use amr_causes::NoMemory;
use amr_cli::Line;
use amr_disk::MemDisk;
use amr_io::{MemSink, MemSource};
use amr_run::amr;
use std::alloc::Global;
use std::fmt::Write as _;
use std::process::Abort;
use std::sync::Wait;
use std::test::Fail;
use std::thread::Threads;

/// The ring: a block of mass 8 that moves half a cell a step along a periodic axis.
pub(crate) const RING: &str = "version = 1
name = \"ring\"
cells = [4, 2]
steps = 1
courant = [1, 0, 2]
sides = [-1, -1, -1, -1]
max_level = 0
blocks = [[0, 0, 0, 0, 8]]
";

pub(crate) const RING_PLOT: &str = "amr-plot 1
name ring
step 1
ledger 0 8 0 0
ledger 1 8 0 0
level 0 1
box 0 0 3 1
4 4 0 0
0 0 0 0
end
";

/// What a call is made on: the words, the bytes, the calls of the source and of the two sinks that fail, and how many bytes the
/// first sink has room for.
#[derive(Clone, Copy)]
pub(crate) struct Case<'a> {
    pub words: &'a str,
    pub bytes: &'a [u8],
    pub reads_fail: &'a [u64],
    pub writes_fail: &'a [u64],
    pub lines_fail: &'a [u64],
    pub room: usize,
}

/// How a call ended, and what went to the two sinks.
#[derive(Drop)]
pub(crate) struct Ended {
    pub status: u8,
    pub out: MemSink,
    pub err: MemSink,
}

impl<'a> Case<'a> {
    pub(crate) fn of(words: &'a str, bytes: &'a [u8]) -> Case<'a> {
        Case {
            words,
            bytes,
            reads_fail: &[],
            writes_fail: &[],
            lines_fail: &[],
            room: 10_000,
        }
    }

    pub(crate) fn run(bytes: &'a [u8]) -> Case<'a> {
        Case::of("run", bytes)
    }

    /// Makes the call on a disk.
    pub(crate) fn call<R: Alloc<A = Global> + Threads + Wait + Sync>(
        self,
        rt: &R,
        disk: &mut MemDisk,
    ) -> Result<Ended, NoMemory> {
        let alloc = rt.alloc();
        let line = line_of(alloc, self.words)?;
        let mut src = MemSource::make(alloc, self.bytes, 1000, self.reads_fail)?;
        let mut out = MemSink::make(alloc, self.room, 16, self.writes_fail)?;
        let mut err = MemSink::make(alloc, 1000, 40, self.lines_fail)?;
        let status = amr(rt, alloc, &line, &mut src, &mut out, &mut err, disk).code();
        Ok(Ended { status, out, err })
    }

    /// The status and what went to the two sinks are as wanted.
    pub(crate) fn ends_on<R: Abort + Alloc<A = Global> + Threads + Wait + Sync>(
        self,
        rt: &R,
        disk: &mut MemDisk,
        status: u8,
        out: &str,
        err: &str,
    ) {
        let ended = self.call(rt, disk).expect(rt, "memory");
        assert_eq!(rt; ended.err.bytes(), err.as_bytes());
        assert_eq!(rt; ended.out.bytes(), out.as_bytes());
        assert_eq!(rt; ended.status, status);
    }

    /// The same on a disk that fails at its first call: a command that opens no store makes none.
    pub(crate) fn ends<R: Abort + Alloc<A = Global> + Threads + Wait + Sync>(
        self,
        rt: &R,
        status: u8,
        out: &str,
        err: &str,
    ) {
        let mut disk = MemDisk::make(rt.alloc(), &[], 0, 0, &[], Some(1)).expect(rt, "memory");
        self.ends_on(rt, &mut disk, status, out, err);
    }
}

/// The words, parted by blanks; of no text no word.
fn line_of(alloc: Global, words: &str) -> Result<Line, NoMemory> {
    let mut line = Line::make(alloc);
    if words.is_empty() {
        return Ok(line);
    }
    for word in words.split(' ') {
        line.push(word)?;
    }
    Ok(line)
}

fn key_of(line: &str) -> &str {
    line.split(' ').next().unwrap_or("")
}

/// The ring with these lines, parted by semicolons, in the place of those with their keys. A key alone takes its line away.
pub(crate) fn ring_with(alloc: Global, lines: &str) -> Result<String, Fail> {
    let mut text = String::new(alloc);
    for old in RING.lines() {
        let mut stays = true;
        for line in lines.split(';') {
            stays = stays && key_of(line) != key_of(old);
        }
        if stays {
            write!(text, "{old}\n")?;
        }
    }
    for line in lines.split(';') {
        if line.contains('=') {
            write!(text, "{line}\n")?;
        }
    }
    Ok(text)
}

/// The ring in four steps.
pub(crate) const LONG_RING: &str = "version = 1
name = \"ring\"
cells = [4, 2]
steps = 4
courant = [1, 0, 2]
sides = [-1, -1, -1, -1]
max_level = 0
blocks = [[0, 0, 0, 0, 8]]
";

/// Its plot at step 2.
pub(crate) const TWO_STEPS: &str = "amr-plot 1
name ring
step 2
ledger 0 8 0 0
ledger 1 8 0 0
ledger 2 8 0 0
level 0 1
box 0 0 3 1
2 4 2 0
0 0 0 0
end
";

/// And at its last step.
pub(crate) const FOUR_STEPS: &str = "amr-plot 1
name ring
step 4
ledger 0 8 0 0
ledger 1 8 0 0
ledger 2 8 0 0
ledger 3 8 0 0
ledger 4 8 0 0
level 0 1
box 0 0 3 1
1 2 3 2
0 0 0 0
end
";

/// An empty disk that fails at some calls, and from one on at all.
pub(crate) fn empty_disk(
    alloc: Global,
    fails: &[u64],
    stop: Option<u64>,
) -> Result<MemDisk, NoMemory> {
    MemDisk::make(alloc, &[], 4000, 1000, fails, stop)
}
