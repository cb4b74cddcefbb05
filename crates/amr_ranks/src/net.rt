//! Posts and deliveries as a pure machine of events.

ghost use Rattle.std.specs.Prelude.{◌≡◌, ◌<◌, IfOk, length};
ghost use Rattle.amr_ranks.specs.declared.net.NetEvent.{NetEvent};
ghost use Rattle.amr_ranks.specs.Letters.{numbers_to};

use crate::letter::Letter;
use crate::node::Node;
use amr_causes::NoMemory;
use std::alloc::Global;
use std::marker::Model;

/// What happens to a letter. Letters are numbered from 0, in the net's order.
#[derive(Clone, Copy, PartialEq, Eq, Debug)]
pub enum NetEvent {
    /// It is sent. Each letter is sent once.
    Post(usize),
    /// It reaches its rank, as often as it may after it was sent.
    Deliver(usize),
}

/// Letters under way between ranks, and what each rank has of those to it.
#[derive(Drop)]
pub struct Net {
    letters: Vec<Letter>,
    posted: Vec<bool>,
    nodes: Vec<Node>,
    words: u32,
    room: usize,
}

impl Model for Net {
    ghost use Rattle.std.specs.Prelude.{map};
    ghost use Rattle.amr_ranks.specs.Nodes.{NodeOf};
    ghost use Rattle.amr_ranks.specs.Nets.{NetOf, IsHeld};

    ghost Value = { NetOf };

    ghost view = { λ n. record {
      letters = n.letters.items;
      words = n.words;
      room = n.room;
      posted = n.posted.items;
      taken = map (λ (d : NodeOf). d.taken) n.nodes.items;
    } };

    ghost invariant = { λ n. IsHeld
        (record {
          letters = n.letters.items;
          words = n.words;
          room = n.room;
          posted = n.posted.items;
          taken = map (λ (d : NodeOf). d.taken) n.nodes.items;
        }) n.nodes.items };
}

impl Net {
    ghost use Rattle.amr_ranks.specs.Letters.{IsNet};
    ghost use Rattle.amr_ranks.specs.Nets.{Moves, Steps, after_deliver, after_post, fresh, node_of};

    /// The net of these letters between so many ranks: none is sent, and no rank has any. Node r is what `Node::make` gives
    /// for rank r, the numbers of the letters to it in their order, and these words and cells. It is refused only if
    /// allocation fails.
    pub fn make(
        alloc: Global,
        letters: Vec<Letter>,
        ranks: u32,
        words: u32,
        cells: usize,
    ) -> Result<Net, NoMemory>
        requires { IsNet letters.items ranks words cells }
        ensures { IfOk result (λ n. n ≡ fresh letters.items ranks words cells) }
    {
        let posted = vec![in alloc; false; letters.len()]?;
        let mut nodes = Vec::new(alloc);
        for rank in 0..ranks {
            let numbers = numbers_to(alloc, letters.as_slice(), rank)?;
            nodes.push(Node::make(alloc, rank, numbers, words, cells)?)?;
        }
        Ok(Net {
            letters,
            posted,
            nodes,
            words,
            room: cells,
        })
    }

    /// One event. False, and nothing changes, exactly where it isn't enabled: `Post(k)` is where there is a letter k that
    /// wasn't sent, `Deliver(k)` where letter k was sent.
    pub fn step(&mut self, event: NetEvent) -> bool
        ensures { Steps self.old event result self.new }
    {
        match event {
            NetEvent::Post(k) => self.post(k),
            NetEvent::Deliver(k) => self.deliver(k),
        }
    }

    fn post(&mut self, k: usize) -> bool
        ensures { Moves (after_post self.old k) self.old result self.new }
    {
        if k >= self.letters.len() || self.posted[k] {
            return false;
        }
        self.posted[k] = true;
        true
    }

    fn deliver(&mut self, k: usize) -> bool
        ensures { Moves (after_deliver self.old k) self.old result self.new }
    {
        if k >= self.letters.len() || !self.posted[k] {
            return false;
        }
        let letter = &self.letters[k];
        let _ = self.nodes[letter.to() as usize].take(letter);
        true
    }

    /// What this rank has.
    pub fn node(&self, rank: u32) -> &Node
        requires { rank < length self.now.taken }
        ensures { result.now ≡ node_of self.now rank }
    {
        &self.nodes[rank as usize]
    }
}

// The numbers of the letters to this rank, in their order.
fn numbers_to(alloc: Global, letters: &[Letter], rank: u32) -> Result<Vec<u32>, NoMemory>
    ensures { IfOk result (λ v. v.items ≡ numbers_to rank letters.now) }
{
    let numbers = letters
        .iter()
        .filter(|letter| letter.to() == rank)
        .map(|letter| letter.number())
        .collect(alloc)?;
    Ok(numbers)
}
