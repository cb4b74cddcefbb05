//! One channel to one rank: a round's letters go through it, each with a room of its own.

ghost use Rattle.std.specs.Prelude.{◌≡◌, ◌+◌, ◌-◌, ◌<◌, ◌++◌, ◌∷◌, [], ℕ, length, IfOk, MatchOption};
ghost use Rattle.crossbeam_channel.specs.Claims.{view, IsSeatAt};
ghost use Rattle.crossbeam_channel.specs.Ends.{receives_on, ruled_capacity, sends_on};
ghost use Rattle.amr_ranks.specs.Items.{total};
ghost use Rattle.amr_ranks.specs.Letters.{LetterOf};
ghost use Rattle.amr_post.specs.Rounds.{hand, rooms, HasLeft};

use amr_causes::NoMemory;
use amr_ranks::Letter;
use crossbeam_channel::protocol::{Join, Lesson, Outcome, Protocol, Split};
use crossbeam_channel::{Pass, RuledReceiver, RuledSender, TrySendError, bounded_with};
use std::alloc::Global;
use std::collections::LinkedList;
use std::sync::Wait;

/// Room for a letter from each of eight ranks, and one that stays with the end of the one that opened the channel.
pub(crate) const ROOM: usize = 9;

/// How many letters an end may still send, and which it sent and got. No value of it is made.
pub struct Hand {
    pub room: u64,
    pub sent: LinkedList<Letter>,
    pub got: LinkedList<Letter>,
}

/// The rule of a round.
pub struct Round;

impl Protocol<Letter, Hand> for Round {
    ghost use Rattle.std.specs.Prelude.{[]};
    ghost use Rattle.amr_post.specs.Rounds.{hand, Balanced};

    ghost holds = { Balanced };

    ghost first = { hand 9 [] [] };
}

/// One room goes to another end.
pub struct Rooms;

impl Split<Hand> for Rooms {
    ghost use Rattle.std.specs.Prelude.{◌-◌, []};
    ghost use Rattle.amr_post.specs.Rounds.{hand};

    ghost left = { λ v. hand (v.room - 1) v.sent v.got };

    ghost right = { λ v. hand 1 [] [] };
}

impl Join<Hand> for Rooms {
    ghost use Rattle.std.specs.Prelude.{◌+◌, ◌++◌, []};
    ghost use Rattle.amr_post.specs.Rounds.{hand};

    ghost both = { λ v w. hand (v.room + w.room) (v.sent ++ w.sent) (v.got ++ w.got) };

    ghost spent = { hand 0 [] [] };
}

/// A letter is sent. The channel is never full where an end has room.
pub struct Sends;

impl Outcome<Letter, Hand> for Sends {
    ghost use Rattle.std.specs.Prelude.{◌≡◌, ◌-◌, ◌++◌, ◌∷◌, []};
    ghost use Rattle.amr_post.specs.Rounds.{hand};

    ghost then = { λ v x w. w ≡ hand (v.room - 1) (v.sent ++ x ∷ []) v.got };
}

impl Lesson<Letter, Hand> for Sends {
    ghost use Rattle.std.specs.Prelude.{◌<◌, length};

    ghost fact = { λ v items. length items < 9 };
}

/// A letter is got. The end that has had all rooms knows what is left.
pub struct Gets;

impl Outcome<Letter, Hand> for Gets {
    ghost use Rattle.std.specs.Prelude.{◌≡◌, ◌++◌, ◌∷◌, []};
    ghost use Rattle.amr_post.specs.Rounds.{hand, HasLeft};

    ghost then = { λ v x w. (w ≡ hand v.room v.sent (v.got ++ x ∷ [])) × HasLeft v x };
}

impl Lesson<Letter, Hand> for Gets {
    ghost use Rattle.std.specs.Prelude.{◌≡◌, ◌+◌, ℕ};
    ghost use Rattle.amr_ranks.specs.Items.{total};
    ghost use Rattle.amr_ranks.specs.Letters.{LetterOf};

    ghost fact = { λ v items. (weight : LetterOf → ℕ) → total weight v.sent ≡ total weight v.got + total weight items };
}

pub type Outlet = RuledSender<Letter, Hand, Round>;

pub type Inlet = RuledReceiver<Letter, Hand, Round>;

/// Sends a letter. It comes back exactly where the channel is shut, which no cause is told of; the channel is never full.
pub(crate) fn send<R: Wait>(
    rt: &R,
    outlet: &Outlet,
    pass: &mut Pass<Letter, Hand>,
    letter: Letter,
) -> Option<Letter>
    requires channel { IsSeatAt (sends_on outlet.now) pass.old }
    requires capacity { ruled_capacity (sends_on outlet.now) ≡ 9 }
    requires room { 0 < (view pass.old).room }
    ensures channel { IsSeatAt (sends_on outlet.now) pass.new }
    ensures sent { MatchOption result (view pass.new ≡ hand ((view pass.old).room - 1) ((view pass.old).sent ++ letter ∷ []) (view pass.old).got)
        (λ back. (back ≡ letter) × (view pass.new ≡ view pass.old)) }
{
    match outlet.try_send_as::<Sends, R>(rt, pass, letter) {
        Ok(()) => None,
        Err(TrySendError::Full(_)) => unreachable!(),
        Err(e) => Some(e.into_inner()),
    }
}

/// Gets a letter. The end has had all rooms, and got fewer letters than were sent.
pub(crate) fn receive<R: Wait>(rt: &R, inlet: &Inlet, pass: &mut Pass<Letter, Hand>) -> Letter
    requires channel { IsSeatAt (receives_on inlet.now) pass.old }
    requires all { rooms (view pass.old) ≡ 9 }
    requires some { length (view pass.old).got < length (view pass.old).sent }
    ensures channel { IsSeatAt (receives_on inlet.now) pass.new }
    ensures got { view pass.new ≡ hand (view pass.old).room (view pass.old).sent ((view pass.old).got ++ result ∷ []) }
    ensures left { HasLeft (view pass.old) result }
{
    match inlet.try_recv_as::<Gets, R>(rt, pass) {
        Ok(letter) => letter,
        Err(_) => unreachable!(),
    }
}

/// A channel with all its rooms at one end, and nothing sent.
pub(crate) fn open(alloc: Global) -> Result<(Outlet, Inlet, Pass<Letter, Hand>), NoMemory>
    ensures { IfOk result (λ r. (receives_on r.1 ≡ sends_on r.0) × (ruled_capacity (sends_on r.0) ≡ 9) × IsSeatAt (sends_on r.0) r.2
        × (view r.2 ≡ hand 9 [] [])) }
{
    Ok(bounded_with(alloc, ROOM)?)
}

/// A further end, with one room of this one's.
pub(crate) fn another(outlet: &Outlet, pass: &mut Pass<Letter, Hand>) -> Pass<Letter, Hand>
    requires channel { IsSeatAt (sends_on outlet.now) pass.old }
    requires room { 0 < (view pass.old).room }
    requires more { 1 < rooms (view pass.old) }
    ensures channel { IsSeatAt (sends_on outlet.now) pass.new × IsSeatAt (sends_on outlet.now) result }
    ensures parted { (view pass.new ≡ hand ((view pass.old).room - 1) (view pass.old).sent (view pass.old).got) × (view result ≡ hand 1 [] []) }
{
    outlet.another::<Rooms>(pass)
}

/// Takes in what another end has sent and got, and the rooms that it has left.
pub(crate) fn absorb(outlet: &Outlet, pass: &mut Pass<Letter, Hand>, other: Pass<Letter, Hand>)
    requires channel { IsSeatAt (sends_on outlet.now) pass.old × IsSeatAt (sends_on outlet.now) other }
    requires had { 0 < rooms (view pass.old) }
    ensures channel { IsSeatAt (sends_on outlet.now) pass.new }
    ensures both { view pass.new ≡ hand ((view pass.old).room + (view other).room) ((view pass.old).sent ++ (view other).sent)
        ((view pass.old).got ++ (view other).got) }
{
    outlet.absorb::<Rooms>(pass, other)
}
