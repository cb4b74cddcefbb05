//! The flows of a run of a level's patches, to places in a list of the words that they go to.

ghost use Rattle.std.specs.Prelude.{◌≡◌, ℕ, ◌+◌, ◌<◌, ◌≤◌, ◌^◌, [], ◌∷◌, length, map, slice_index, vec_capacity, IfOk, OnOk};
ghost use Rattle.std.specs.List.{All, range_with_len};
ghost use Rattle.amr_layout.specs.LevelFlowLists.{HasFlowsAt, flow_lists, flows_at};
ghost use Rattle.amr_layout.specs.PartFlows.{AppendsNumbered, AreNumbered, AreNumbersOf, AreOnce, IsLonger};

use crate::FlowTo;
use crate::level_flows::LevelFlows;
use amr_causes::NoMemory;
use std::alloc::Global;

/// The flows of a run of patches. Each flow's word is given by its place in `words`.
#[derive(Drop)]
pub struct RunFlows {
    pub flows: LevelFlows,
    /// The words of the level that they go to.
    pub words: Vec<u32>,
}

/// The place of a word in a list of words. It is put at the end where it was not there. `numbers` tells for each word of the level where
/// it stands in the list, from 1 on, or 0.
fn place_of(words: &mut Vec<u32>, numbers: &mut [u32], word: u32) -> Result<u32, NoMemory>
    requires there { word < length numbers.old }
    requires few { length numbers.old < 2 ^ 32 }
    requires numbers { AreNumbersOf words.old.items numbers.old }
    ensures count { length numbers.new ≡ length numbers.old }
    ensures numbers { OnOk result (AreNumbersOf words.new.items numbers.new) }
    ensures longer { OnOk result (IsLonger words.old.items words.new.items) }
    ensures within { IfOk result (λ place. place < length words.new.items) }
    ensures place { IfOk result (λ place. slice_index words.new.items place ≡ word) }
{
    let number = numbers[word as usize];
    if number > 0 {
        return Ok(number - 1);
    }
    let place = words.len() as u32;
    words.push(word)?;
    numbers[word as usize] = place + 1;
    Ok(place)
}

/// Puts flows behind a list, to places in a list of words, to which those that it lacks are added.
fn append_numbered(
    all: &mut Vec<FlowTo>,
    flows: &[FlowTo],
    words: &mut Vec<u32>,
    numbers: &mut [u32],
) -> Result<(), NoMemory>
    requires words { All (λ x. x.word < length numbers.old) flows.now }
    requires few { length numbers.old < 2 ^ 32 }
    requires numbers { AreNumbersOf words.old.items numbers.old }
    ensures count { length numbers.new ≡ length numbers.old }
    ensures numbers { OnOk result (AreNumbersOf words.new.items numbers.new) }
    ensures longer { OnOk result (IsLonger words.old.items words.new.items) }
    ensures flows { OnOk result (AppendsNumbered words.new.items flows.now all.old.items all.new.items) }
{
    for k in 0..flows.len() {
        let place = place_of(words, numbers, flows[k].word)?;
        all.push(FlowTo {
            word: place,
            face: flows[k].face,
        })?;
    }
    Ok(())
}

/// A list of bounds that begins with 0, and has room for one a patch of so many.
fn first_bound(alloc: Global, count: usize) -> Result<Vec<usize>, NoMemory>
    requires { count < 2 ^ 62 }
    ensures items { IfOk result (λ v. v.items ≡ 0 ∷ []) }
    ensures room { IfOk result (λ v. count + 1 ≤ vec_capacity v) }
{
    let mut bounds = Vec::with_capacity(alloc, count + 1)?;
    bounds.push_reserved(0);
    Ok(bounds)
}

/// The flows of so many patches of a level, from one on, patch by patch, and the words that they go to, of so many that the level has.
pub fn flows_of_part(
    alloc: Global,
    level: &LevelFlows,
    first: usize,
    count: usize,
    many: usize,
) -> Result<RunFlows, NoMemory>
    requires there { (i : ℕ) → i < count → HasFlowsAt level.now (first + i) }
    requires small { first + count < 2 ^ 62 }
    requires words { All (λ x. x.word < many) level.now.flows.items }
    requires few { many < 2 ^ 32 }
    ensures count { IfOk result (λ x. length x.flows.bounds.items ≡ count + 1) }
    ensures bounds { IfOk result (λ x. (i : ℕ) → i < count → HasFlowsAt x.flows i) }
    ensures flows { IfOk result (λ x. AreNumbered x.words.items (map (λ i. flows_at level.now (first + i)) (range_with_len 0 count))
        (flow_lists x.flows count)) }
    ensures words { IfOk result (λ x. All (λ w. w < many) x.words.items) }
    ensures once { IfOk result (λ x. AreOnce x.words.items) }
{
    let mut flows = Vec::new(alloc);
    let mut bounds = first_bound(alloc, count)?;
    let mut words = Vec::new(alloc);
    let mut numbers = vec![in alloc; 0u32; many]?;
    for i in 0..count {
        append_numbered(&mut flows, level.of(first + i), &mut words, &mut numbers)?;
        let end = flows.len();
        bounds.push_reserved(end);
    }
    Ok(RunFlows {
        flows: LevelFlows { flows, bounds },
        words,
    })
}
