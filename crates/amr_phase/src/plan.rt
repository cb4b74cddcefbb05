//! What the tasks of a phase post.
ghost use Rattle.std.specs.Prelude.{◌≡◌, ◌+◌, ◌≤◌, ◌^◌, min, MatchOption, false, List, length};
ghost use Rattle.std.specs.List.{list_all};
ghost use Rattle.amr_phase.specs.declared.plan.Task.{Task};
ghost use Rattle.amr_phase.specs.declared.plan.Post.{Post};
ghost use Rattle.amr_phase.specs.Plans.{PlanOf, IsPlan, is_plan, is_sound_put, is_sound_add, are_posts_sound, puts_named, planned_total, named, added, total};

use crate::list::List;
use std::marker::Model;

/// Amounts put into a place or added to a word stay below this.
const LIMIT: u64 = 1 << 63;

/// An amount for one numbered place or word.
#[derive(Clone, Copy, PartialEq, Eq, Debug)]
pub struct Post {
    /// The number of the place or word.
    pub at: u32,
    pub amount: u64,
}

/// What one task posts: first its puts into places, then its adds to words, each in order.
#[derive(Drop)]
pub struct Task {
    pub puts: List<Post>,
    pub adds: List<Post>,
}

/// What the tasks of a phase post in all. Each number is in range, no place is named by two puts, and what is put or
/// added at one place or word is below 2^63.
#[derive(Drop)]
pub struct Plan {
    places: u32,
    words: u32,
    tasks: List<Task>,
}

impl Model for Plan {
    ghost use Rattle.std.specs.Prelude.{◌≡◌, true};
    ghost use Rattle.amr_phase.specs.Plans.{PlanOf, is_plan};

    ghost Value = { PlanOf };

    ghost view = { λ p. record { places = p.places; words = p.words; tasks = p.tasks } };

    ghost invariant = { λ p. is_plan (record { places = p.places; words = p.words; tasks = p.tasks }) ≡ true };
}

impl Plan {
    /// The plan of these tasks, with places and words numbered from 0. None exactly where a post names a number out of
    /// range, two puts name one place, or what is put or added at one place or word reaches 2^63. The tasks are then
    /// dropped. It takes no memory, and compares each post with all others.
    pub fn try_new(places: u32, words: u32, tasks: List<Task>) -> Option<Plan>
        ensures { let asked : PlanOf = record { places = places; words = words; tasks = tasks } in MatchOption result (is_plan asked ≡ false)
            (λ p. (p ≡ asked) × IsPlan p) }
    {
        if !are_tasks_sound(places, words, tasks.as_slice()) {
            return None;
        }
        Some(Plan {
            places,
            words,
            tasks,
        })
    }

    /// How many places there are.
    pub fn places(&self) -> u32
        ensures { result ≡ self.now.places }
    {
        self.places
    }

    /// How many words there are.
    pub fn words(&self) -> u32
        ensures { result ≡ self.now.words }
    {
        self.words
    }

    /// The tasks, by their numbers.
    pub fn tasks(&self) -> &[Task]
        ensures tasks { result.now ≡ self.now.tasks }
        ensures plan { IsPlan self.now }
    {
        self.tasks.as_slice()
    }
}

fn are_tasks_sound(places: u32, words: u32, all: &[Task]) -> bool
    ensures { result ≡ is_plan (record { places = places; words = words; tasks = all.now }) }
{
    all.iter()
        .all(|task| are_posts_sound(places, words, all, task))
}

fn are_posts_sound(places: u32, words: u32, all: &[Task], task: &Task) -> bool
    ensures { result ≡ are_posts_sound (record { places = places; words = words; tasks = all.now }) task.now }
{
    are_puts_sound(places, words, all, task.puts.as_slice())
        && are_adds_sound(places, words, all, task.adds.as_slice())
}

fn are_puts_sound(places: u32, words: u32, all: &[Task], puts: &[Post]) -> bool
    ensures { result ≡ list_all (is_sound_put (record { places = places; words = words; tasks = all.now })) puts.now }
{
    puts.iter().all(|put| is_put_sound(places, words, all, put))
}

fn are_adds_sound(places: u32, words: u32, all: &[Task], adds: &[Post]) -> bool
    ensures { result ≡ list_all (is_sound_add (record { places = places; words = words; tasks = all.now })) adds.now }
{
    adds.iter().all(|add| is_add_sound(places, words, all, add))
}

fn is_put_sound(places: u32, words: u32, all: &[Task], put: &Post) -> bool
    ensures { result ≡ is_sound_put (record { places = places; words = words; tasks = all.now }) put.now }
{
    put.at < places && put.amount < LIMIT && count_at(all, put.at) <= 1
}

fn is_add_sound(places: u32, words: u32, all: &[Task], add: &Post) -> bool
    ensures { result ≡ is_sound_add (record { places = places; words = words; tasks = all.now }) add.now }
{
    add.at < words && total_at(all, add.at) < LIMIT
}

// How many puts name the place, counted up to 2.
#[tactic(auto, using(crate::proofs::Sums::total_more))]
fn count_at(all: &[Task], place: u32) -> u64
    ensures { result ≡ min (total (λ (t : Task). total (named place) t.puts) all.now) 2 }
{
    let mut found = 0;
    for task in all {
        found = count_more(task.puts.as_slice(), place, found);
    }
    found
}

#[tactic(auto, using(crate::proofs::Sums::total_more))]
fn count_more(puts: &[Post], place: u32, before: u64) -> u64
    requires { before ≤ 2 }
    ensures { result ≡ min (before + total (named place) puts.now) 2 }
{
    let mut found = before;
    for put in puts {
        if put.at == place {
            found = (found + 1).min(2);
        }
    }
    found
}

// What is added to the word, counted up to the limit.
#[tactic(auto, using(crate::proofs::Sums::total_more))]
fn total_at(all: &[Task], word: u32) -> u64
    ensures { result ≡ min (total (λ (t : Task). total (added word) t.adds) all.now) (2 ^ 63) }
{
    let mut sum = 0;
    for task in all {
        sum = total_more(task.adds.as_slice(), word, sum);
    }
    sum
}

#[tactic(auto, using(crate::proofs::Sums::total_more))]
fn total_more(adds: &[Post], word: u32, before: u64) -> u64
    requires { before ≤ 2 ^ 63 }
    ensures { result ≡ min (before + total (added word) adds.now) (2 ^ 63) }
{
    let mut sum = before;
    for add in adds {
        if add.at == word {
            sum = sum.saturating_add(add.amount).min(LIMIT);
        }
    }
    sum
}
