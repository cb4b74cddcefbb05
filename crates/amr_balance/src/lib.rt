//! Tasks shared out among workers in advance (list scheduling; Graham 1966).
#![tactic(auto)]

ghost use Rattle.std.specs.Prelude.{◌≡◌, ℕ, ◌^◌, ◌<◌, ◌≤◌, length, slice_index, slice_index_or, [], sum, IfOk};
ghost use Rattle.amr_balance.specs.Shares.{IsBalanced, IsLeast, IsShare, lists_in};

use amr_causes::NoMemory;
use std::alloc::Global;

/// The worker with the least to do, the lowest number on a tie.
fn least_loaded(loads: &[u64]) -> usize
    requires { 0 < length loads.now }
    ensures { IsLeast (length loads.now) (slice_index loads.now) result }
{
    let mut least = 0;
    for w in 1..loads.len() {
        if loads[w] < loads[least] {
            least = w;
        }
    }
    least
}

/// A lot of no tasks for each worker.
fn empty_lots(alloc: Global, workers: usize) -> Result<Vec<Vec<u32>>, NoMemory>
    ensures count { IfOk result (λ lots. length (lists_in lots.items) ≡ workers) }
    ensures empty { IfOk result (λ lots. (w : ℕ) → slice_index_or (lists_in lots.items) w [] ≡ []) }
{
    let mut lots = Vec::new(alloc);
    for _ in 0..workers {
        lots.push(Vec::new(alloc))?;
    }
    Ok(lots)
}

/// Shares tasks with these areas (cells, say) out among workers. Each task in turn goes to the worker with the
/// least to do, the lowest number on a tie. Lot `w` has the numbers of the tasks of worker `w`, in order; each task
/// is in one lot. So a worker has at most the average and, but for one worker's part of it, the largest task (Graham
/// 1966).
///
/// There are 1 to 64 workers and fewer than 2^32 tasks, which add up to less than 2^48. `NoMemory` is the only refusal.
pub fn share(alloc: Global, areas: &[u64], workers: u32) -> Result<Vec<Vec<u32>>, NoMemory>
    requires few { length areas.now < 2 ^ 32 }
    requires small { sum areas.now < 2 ^ 48 }
    requires some { 1 ≤ workers }
    requires crew { workers ≤ 64 }
    ensures turns { IfOk result (λ lots. IsShare areas.now workers (lists_in lots.items)) }
    ensures balance { IfOk result (λ lots. IsBalanced areas.now workers (lists_in lots.items)) }
{
    let mut loads = vec![in alloc; 0u64; workers as usize]?;
    let mut lots = empty_lots(alloc, workers as usize)?;
    for k in 0..areas.len() {
        let w = least_loaded(&loads);
        loads[w] += areas[k];
        lots[w].push(k as u32)?;
    }
    Ok(lots)
}
