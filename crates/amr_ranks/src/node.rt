//! What one rank has of the letters to it.

ghost use Rattle.std.specs.Prelude.{◌≡◌, ◌==◌, ◌<◌, IfOk, length, slice_index};
ghost use Rattle.std.specs.List.{list_any};
ghost use Rattle.amr_ranks.specs.declared.node.Run.{Run};
ghost use Rattle.amr_ranks.specs.declared.node.Taken.{Taken};

use crate::item::FrameCell;
use crate::letter::Letter;
use crate::parts;
use amr_causes::NoMemory;
use std::alloc::Global;
use std::marker::Model;

/// What became of a letter that was handed to a node.
#[derive(Clone, Copy, PartialEq, Eq, Debug)]
pub enum Taken {
    /// Its number was not taken before: the node has its cells and shares now.
    New,
    /// Its number was taken before. Nothing changed.
    Again,
    /// Its number is none of the node's. Nothing changed.
    Stranger,
}

// The letter with this number was taken, and its cells end before `end`. Those of the first letter begin at 0, those of
// any other where the one before ends.
#[derive(Clone, Copy)]
pub(crate) struct Run {
    pub(crate) number: u32,
    pub(crate) end: usize,
    // Its cells rise by patches, then by slots.
    pub(crate) rises: bool,
}

/// The cells and totals of one rank, from the letters that it has taken so far. All its memory is taken by `make`.
#[derive(Drop)]
pub struct Node {
    rank: u32,
    numbers: Vec<u32>,
    cells: Vec<FrameCell>,
    filled: usize,
    runs: Vec<Run>,
    count: usize,
    totals: Vec<u64>,
}

impl Model for Node {
    ghost use Rattle.std.specs.Prelude.{length, map, take};
    ghost use Rattle.amr_ranks.specs.Nodes.{NodeOf};

    ghost Value = { NodeOf };

    ghost use Rattle.amr_ranks.specs.declared.node.Run.{Run};
    ghost use Rattle.amr_ranks.specs.Stored.{IsStored};

    ghost view = { λ n. record {
      rank = n.rank;
      numbers = n.numbers.items;
      room = length n.cells.items;
      taken = map (λ (r : Run). r.number) (take n.count n.runs.items);
      cells = take n.filled n.cells.items;
      totals = n.totals.items;
    } };

    ghost invariant = { λ n. IsStored n.numbers.items n.cells.items n.filled n.runs.items n.count };
}

impl Node {
    ghost use Rattle.amr_ranks.specs.Items.{mass_at};
    ghost use Rattle.amr_ranks.specs.Nodes.{Fits, answer, fresh_node, is_in, is_ready, taking};

    /// The node of this rank, which has taken no letter. The letters to it have these numbers, the totals are those of so
    /// many words, and it has room for so many cells. It is refused only if allocation fails.
    pub fn make(
        alloc: Global,
        rank: u32,
        numbers: Vec<u32>,
        words: u32,
        cells: usize,
    ) -> Result<Node, NoMemory>
        ensures { IfOk result (λ n. n ≡ fresh_node rank numbers.items words cells) }
    {
        let none = FrameCell {
            patch: 0,
            slot: 0,
            mass: 0,
        };
        let unused = Run {
            number: 0,
            end: 0,
            rises: true,
        };
        let cells = vec![in alloc; none; cells]?;
        let runs = vec![in alloc; unused; numbers.len()]?;
        let totals = vec![in alloc; 0; words as usize]?;
        Ok(Node {
            rank,
            numbers,
            cells,
            filled: 0,
            runs,
            count: 0,
            totals,
        })
    }

    // Whether the letter with this number was taken.
    fn has(&self, number: u32) -> bool
        ensures { result ≡ is_in number self.now.taken }
    {
        has_number(&self.runs[..self.count], number)
    }

    /// Takes a letter to this rank. A number that is the node's counts the first time that it comes. The letter must then
    /// fit beside what the node has. It takes no memory.
    pub fn take(&mut self, letter: &Letter) -> Taken
        requires to { letter.now.to ≡ self.old.rank }
        requires fits { answer self.old letter.now ≡ Taken.New → Fits self.old letter.now }
        ensures answer { result ≡ answer self.old letter.now }
        ensures after { self.new ≡ taking result self.old letter.now }
    {
        let number = letter.number();
        if !self.numbers.contains(&number) {
            return Taken::Stranger;
        }
        if self.has(number) {
            return Taken::Again;
        }
        let start = self.filled;
        let end = parts::copy_cells(letter.items(), self.cells.as_mut_slice(), start);
        parts::add_shares(letter.items(), self.totals.as_mut_slice());
        let rises = parts::rises(&self.cells[start..end]);
        self.runs[self.count] = Run { number, end, rises };
        self.count += 1;
        self.filled = end;
        Taken::New
    }

    /// Whether all its numbers were taken.
    pub fn ready(&self) -> bool
        ensures { result ≡ is_ready self.now }
    {
        self.numbers.iter().all(|number| self.has(*number))
    }

    /// The mass of the cell at this slot of this patch: None exactly where no letter that was taken has that cell.
    pub fn cell(&self, patch: u32, slot: u32) -> Option<u64>
        ensures { result ≡ mass_at patch slot self.now.cells }
    {
        let mut start = 0;
        for run in &self.runs[..self.count] {
            let found = parts::find(&self.cells[start..run.end], run.rises, patch, slot);
            if found.is_some() {
                return found;
            }
            start = run.end;
        }
        None
    }

    /// The sum of the shares of this word in the letters that were taken.
    pub fn total(&self, word: u32) -> u64
        requires { word < length self.now.totals }
        ensures { result ≡ slice_index self.now.totals word }
    {
        self.totals[word as usize]
    }
}

// Whether a run is of the letter with this number.
fn has_number(runs: &[Run], number: u32) -> bool
    ensures { result ≡ list_any (λ (r : Run). r.number == number) runs.now }
{
    runs.iter().any(|run| run.number == number)
}
