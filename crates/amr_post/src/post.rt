//! A rank's letters of a round, from those who send them to its node.

ghost use Rattle.std.specs.Prelude.{◌≡◌, List, ◌+◌, ◌-◌, ◌∷◌, ◌++◌, [], ◌<◌, ◌≤◌, ℕ, Some, false, true, length, vec_capacity, vec_len, IsSome, MatchOption};
ghost use Rattle.std.specs.List.{All};
ghost use Rattle.crossbeam_channel.specs.Claims.{view, IsSeatAt};
ghost use Rattle.crossbeam_channel.specs.Ends.{receives_on, ruled_capacity, sends_on};
ghost use Rattle.amr_ranks.specs.Letters.{LetterOf};
ghost use Rattle.amr_ranks.specs.Laws.{HasJust};
ghost use Rattle.amr_ranks.specs.Nodes.{Fits, answer, is_ready, taking};
ghost use Rattle.amr_ranks.specs.declared.node.Taken.TheVariants.{New};
ghost use Rattle.amr_post.specs.Rounds.{hand, rooms};
ghost use Rattle.amr_post.specs.Letters.{AreSame, Expects, IsParcel, IsSameNode, letter_of, letters_in};

use crate::amounts::set_all;
use crate::channel::{Hand, Inlet, Outlet, absorb, another, open, receive, send};
use amr_ranks::{Letter, Node};
use crossbeam_channel::Pass;
use std::alloc::Global;
use std::sync::Wait;
use std::thread::{Threads, for_each_mut};

/// A letter on its way, and the end that it is sent by. Once it is sent it is no longer there.
#[derive(Drop)]
pub struct Parcel {
    pub(crate) letter: Option<Letter>,
    pub(crate) pass: Pass<Letter, Hand>,
}

/// The letters of a round to one rank, and the channel that they go through.
#[derive(Drop)]
pub struct RankChannel {
    pub(crate) outlet: Outlet,
    pub(crate) inlet: Inlet,
    pub(crate) pass: Pass<Letter, Hand>,
    pub(crate) parcels: Vec<Parcel>,
}

/// A letter goes to a parcel with an end of its own.
fn pack(outlet: &Outlet, pass: &mut Pass<Letter, Hand>, letter: Letter) -> Parcel
    requires channel { IsSeatAt (sends_on outlet.now) pass.old }
    requires room { 1 < (view pass.old).room }
    ensures channel { IsSeatAt (sends_on outlet.now) pass.new × IsSeatAt (sends_on outlet.now) result.pass }
    ensures parcel { IsParcel result }
    ensures letter { letter_of result ≡ letter ∷ [] }
    ensures there { IsSome result.letter }
    ensures left { view pass.new ≡ hand ((view pass.old).room - 1) (view pass.old).sent (view pass.old).got }
{
    Parcel {
        letter: Some(letter),
        pass: another(outlet, pass),
    }
}

/// One more parcel, where there is room for it.
fn add(parcels: &mut Vec<Parcel>, parcel: Parcel)
    requires { vec_len parcels.old < vec_capacity parcels.old }
    ensures items { parcels.new.items ≡ parcels.old.items ++ parcel ∷ [] }
    ensures capacity { vec_capacity parcels.old ≤ vec_capacity parcels.new }
{
    match parcels.push(parcel) {
        Ok(()) => {}
        Err(_) => unreachable!(),
    }
}

/// Sends a parcel's letter. It stays there where the channel is shut.
fn send_own<R: Wait>(rt: &R, outlet: &Outlet, parcel: &mut Parcel)
    requires channel { IsSeatAt (sends_on outlet.now) parcel.old.pass }
    requires capacity { ruled_capacity (sends_on outlet.now) ≡ 9 }
    requires parcel { IsParcel parcel.old }
    ensures channel { IsSeatAt (sends_on outlet.now) parcel.new.pass }
    ensures parcel { IsParcel parcel.new }
    ensures letter { letter_of parcel.new ≡ letter_of parcel.old }
{
    if let Some(letter) = parcel.letter.take() {
        parcel.letter = send(rt, outlet, &mut parcel.pass, letter);
    }
}

/// Sends all, in so many threads, which are joined.
fn send_all<R: Threads + Wait + Sync>(
    rt: &R,
    outlet: &Outlet,
    threads: usize,
    parcels: &mut [Parcel],
)
    requires some { 0 < threads }
    requires capacity { ruled_capacity (sends_on outlet.now) ≡ 9 }
    requires channel { All (λ q. IsSeatAt (sends_on outlet.now) q.pass) parcels.old }
    requires parcels { All IsParcel parcels.old }
    ensures channel { All (λ q. IsSeatAt (sends_on outlet.now) q.pass) parcels.new }
    ensures parcels { All IsParcel parcels.new }
    ensures letters { letters_in parcels.new ≡ letters_in parcels.old }
{
    let go = move |_: usize, parcel: &mut Parcel|
        requires { IsSeatAt (sends_on outlet.now) parcel.now.pass × IsParcel parcel.now × (ruled_capacity (sends_on outlet.now) ≡ 9) }
        ensures { IsSeatAt (sends_on outlet.entry.now) parcel.exit.now.pass × IsParcel parcel.exit.now
            × (letter_of parcel.exit.now ≡ letter_of parcel.entry.now) }
    { send_own(rt, outlet, parcel) };
    for_each_mut(rt, parcels, threads, &go);
}

/// A parcel's end is taken in, and the letter that is still there is given to its node. How many its end has sent.
fn take_back(
    outlet: &Outlet,
    pass: &mut Pass<Letter, Hand>,
    parcel: Parcel,
    node: &mut Node,
) -> usize
    requires channel { IsSeatAt (sends_on outlet.now) pass.old × IsSeatAt (sends_on outlet.now) parcel.pass }
    requires had { 0 < rooms (view pass.old) }
    requires parcel { IsParcel parcel }
    requires fits { (l : LetterOf) → parcel.letter ≡ Some l → (l.to ≡ node.old.rank) × (answer node.old l ≡ New → Fits node.old l) }
    ensures channel { IsSeatAt (sends_on outlet.now) pass.new }
    ensures both { view pass.new ≡ hand ((view pass.old).room + (view parcel.pass).room) ((view pass.old).sent ++ (view parcel.pass).sent)
        ((view pass.old).got ++ (view parcel.pass).got) }
    ensures node { MatchOption parcel.letter (node.new ≡ node.old) (λ l. node.new ≡ taking (answer node.old l) node.old l) }
    ensures sent { result ≡ length (view parcel.pass).sent }
{
    let Parcel { letter, pass: own } = parcel;
    absorb(outlet, pass, own);
    match letter {
        Some(letter) => {
            let _ = node.take(&letter);
            0
        }
        None => 1,
    }
}

/// Parcels are taken back, and then what was sent is got: each letter goes to its node.
fn deliver_all<R: Wait>(
    rt: &R,
    outlet: &Outlet,
    inlet: &Inlet,
    pass: &mut Pass<Letter, Hand>,
    parcels: &mut Vec<Parcel>,
    node: &mut Node,
)
    requires channel { receives_on inlet.now ≡ sends_on outlet.now }
    requires seat { IsSeatAt (sends_on outlet.now) pass.old }
    requires seats { All (λ q. IsSeatAt (sends_on outlet.now) q.pass) parcels.old.items }
    requires parcels { All IsParcel parcels.old.items }
    requires few { length parcels.old.items ≤ 8 }
    requires unused { view pass.old ≡ hand (9 - length parcels.old.items) [] [] }
    requires expects { (ls : List LetterOf) × AreSame (letters_in parcels.old.items) ls × Expects node.old ls }
    ensures stays { IsSameNode node.old node.new }
    ensures ready { is_ready node.new ≡ true }
    ensures node { (ls : List LetterOf) → AreSame (letters_in parcels.old.items) ls → HasJust node.new (length node.old.totals) ls }
{
    let mut sent = 0;
    while let Some(parcel) = parcels.pop() {
        sent += take_back(outlet, pass, parcel, node);
    }
    for _letter in 0..sent {
        let letter = receive(rt, inlet, pass);
        let _ = node.take(&letter);
    }
}

impl RankChannel {
    ghost use Rattle.std.specs.Prelude.{◌≡◌, ◌≤◌, ◌<◌, length, map, IfErr, IfOk};
    ghost use Rattle.std.specs.List.{All};
    ghost use Rattle.amr_post.specs.Amounts.{HasShares, IsUnsent, with_amounts};
    ghost use Rattle.amr_post.specs.Letters.{AreSame, HasDelivered, IsRankChannel, MayDeliver, letters_in};

    /// The letters of a round to one rank, at most one from each of eight, and a channel with room for them. All memory of the round is
    /// taken here: where it runs out the letters come back.
    pub fn open(alloc: Global, mut letters: Vec<Letter>) -> Result<RankChannel, Vec<Letter>>
        requires { length letters.items ≤ 8 }
        ensures post { IfOk result IsRankChannel }
        ensures unsent { IfOk result IsUnsent }
        ensures letters { IfOk result (λ p. AreSame (letters_in p.parcels.items) letters.items) }
        ensures back { IfErr result (λ back. back.items ≡ letters.items) }
    {
        let Ok(mut parcels) = Vec::with_capacity(alloc, letters.len()) else {
            return Err(letters);
        };
        let Ok((outlet, inlet, mut pass)) = open(alloc) else {
            return Err(letters);
        };
        while let Some(letter) = letters.pop() {
            let parcel = pack(&outlet, &mut pass, letter);
            add(&mut parcels, parcel);
        }
        Ok(RankChannel {
            outlet,
            inlet,
            pass,
            parcels,
        })
    }

    /// Gives the letter with this number these amounts, item for item, where it is that many shares. All other letters stay. It is done before
    /// any is sent, and takes no memory.
    pub fn set_amounts(&mut self, number: u32, amounts: &[u64])
        requires post { IsRankChannel self.old }
        requires unsent { IsUnsent self.old }
        requires shares { All (HasShares number (length amounts.now)) (letters_in self.old.parcels.items) }
        ensures post { IsRankChannel self.new }
        ensures unsent { IsUnsent self.new }
        ensures letters { letters_in self.new.parcels.items ≡ map (with_amounts number amounts.now) (letters_in self.old.parcels.items) }
    {
        set_all(self.parcels.as_mut_slice(), number, amounts);
    }

    /// Sends all letters, by so many threads, which are joined.
    pub fn send<R: Threads + Wait + Sync>(&mut self, rt: &R, threads: usize)
        requires some { 0 < threads }
        requires post { IsRankChannel self.old }
        ensures post { IsRankChannel self.new }
        ensures letters { letters_in self.new.parcels.items ≡ letters_in self.old.parcels.items }
    {
        send_all(rt, &self.outlet, threads, self.parcels.as_mut_slice());
    }

    /// Gives the rank's node each letter: those that came through the channel, and those that are still there. None is left.
    pub fn deliver<R: Wait>(&mut self, rt: &R, node: &mut Node)
        requires { MayDeliver self.old node.old }
        ensures { HasDelivered self.old node.old node.new }
    {
        deliver_all(
            rt,
            &self.outlet,
            &self.inlet,
            &mut self.pass,
            &mut self.parcels,
            node,
        );
    }
}
