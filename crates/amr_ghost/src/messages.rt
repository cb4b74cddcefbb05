//! The frames of a run of patches, filled by masses of its own patches and by messages from other runs.

ghost use Rattle.std.specs.Prelude.{◌≡◌, length, [], IfOk};
ghost use Rattle.std.specs.List.{All, AllZip};
ghost use Rattle.amr_ghost.specs.Outer.{AreOuterBeside};
ghost use Rattle.amr_ghost.specs.Messages.{ArePacked, HasFilled, HasMadeCopies, HasPacked, HasPlaces, HasUnpacked, IsFrameCopy};
ghost use Rattle.amr_ghost.specs.Messages.{IsMessageFrom, IsMessageTo, IsReceived, IsTaken, mass_count};

use crate::ghosts::{copy_strip, give_strip, take_strip};
use crate::outer::{OuterGhosts, give_outer};
use crate::parts::FrameCopy;
use amr_causes::NoMemory;
use amr_patch::Patch;
use std::alloc::Global;

/// What one run of patches sends to another: masses of its cells, for ghost cells beside the other's patches. It serves each step until a
/// regrid (the buffers of AMReX's `FillBoundary`).
#[derive(Drop)]
pub struct Message {
    /// From which cells of the run that sends, to which ghost cells of the run that receives.
    pub copies: Vec<FrameCopy>,
    /// The masses, one copy after another.
    pub masses: Vec<u32>,
}

impl Message {
    /// A message for these copies. All its masses are 0. `NoMemory` is the only refusal.
    pub fn make(alloc: Global, copies: Vec<FrameCopy>) -> Result<Message, NoMemory>
        ensures copies { IfOk result (λ x. x.copies ≡ copies) }
        ensures places { IfOk result HasPlaces }
    {
        let count = count_masses(&copies)?;
        Ok(Message {
            copies,
            masses: vec![in alloc; 0u32; count]?,
        })
    }

    /// A message with nothing in it, which takes no memory.
    pub fn empty(alloc: Global) -> Message
        ensures copies { result.copies.items ≡ [] }
        ensures masses { result.masses.items ≡ [] }
    {
        Message {
            copies: Vec::new(alloc),
            masses: Vec::new(alloc),
        }
    }
}

/// How many masses copies take. `NoMemory` where there are more than any memory has.
fn count_masses(copies: &[FrameCopy]) -> Result<usize, NoMemory>
    ensures { IfOk result (λ count. count ≡ mass_count copies.now) }
{
    let mut count = 0usize;
    for k in 0..copies.len() {
        count = count
            .checked_add(copies[k].strip.count as usize)
            .ok_or(NoMemory)?;
    }
    Ok(count)
}

/// Writes the masses that copies take from a run's patches, one copy after another.
fn pack(patches: &[Patch], copies: &[FrameCopy], masses: &mut [u32])
    requires copies { All (IsTaken patches.now) copies.now }
    requires places { length masses.old ≡ mass_count copies.now }
    ensures count { length masses.new ≡ length masses.old }
    ensures packed { ArePacked patches.now copies.now masses.new }
{
    let mut done = 0;
    for k in 0..copies.len() {
        let copy = &copies[k];
        let end = done + copy.strip.count as usize;
        let source = &patches[copy.source];
        let taken = &mut masses[done..end];
        take_strip(source, copy.strip.axis, copy.from, taken);
        done = end;
    }
}

/// Gives messages the masses of a run's patches that they take. It takes no memory.
pub fn pack_messages(patches: &[Patch], messages: &mut [Message])
    requires messages { All (IsMessageFrom patches.now) messages.old }
    ensures { AllZip (HasPacked patches.now) messages.old messages.new }
{
    for k in 0..messages.len() {
        let message = &mut messages[k];
        pack(patches, &message.copies, &mut message.masses);
    }
}

/// Makes the copies within a run.
fn fill_within(patches: &mut [Patch], copies: &[FrameCopy])
    requires { All (IsFrameCopy patches.old) copies.now }
    ensures { HasMadeCopies copies.now patches.old patches.new }
{
    for k in 0..copies.len() {
        let copy = copies[k];
        copy_strip(patches, copy.patch, copy.strip, copy.source, copy.from);
    }
}

/// Gives the ghost cells of copies to a run their masses, one copy after another.
fn unpack(patches: &mut [Patch], copies: &[FrameCopy], masses: &[u32])
    requires copies { All (IsReceived patches.old) copies.now }
    requires places { length masses.now ≡ mass_count copies.now }
    ensures { HasUnpacked copies.now masses.now patches.old patches.new }
{
    let mut done = 0;
    for k in 0..copies.len() {
        let copy = &copies[k];
        let end = done + copy.strip.count as usize;
        let given = &masses[done..end];
        give_strip(patches, copy.patch, copy.strip, given, true);
        done = end;
    }
}

/// Gives ghost cells beside a run's patches their values: the outer ones, those of copies within the run, and those that messages are for.
/// All but the outer ones are marked as cells of the level. The patches are those of the run. It looks up no patch, and takes no memory.
pub fn fill_run(
    patches: &mut [Patch],
    outer: &OuterGhosts,
    copies: &[FrameCopy],
    messages: &[Message],
)
    requires outer { AreOuterBeside patches.old outer.now }
    requires copies { All (IsFrameCopy patches.old) copies.now }
    requires messages { All (IsMessageTo patches.old) messages.now }
    ensures { HasFilled outer.now copies.now messages.now patches.old patches.new }
{
    give_outer(patches, &outer.spans, &outer.values);
    fill_within(patches, copies);
    for k in 0..messages.len() {
        let message = &messages[k];
        unpack(patches, &message.copies, &message.masses);
    }
}
