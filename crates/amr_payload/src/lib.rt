//! The payload of a state: the bytes that a state is kept as, the tests that bytes are read by, and the laws of both.
//! The definitions stand in `specs/Payload` and `specs/Tests`. A state is written on a basis: by itself, with masses of
//! 64 bits (payload 1) or of 32 bits (payload 2), or on an older state (a record, `specs/Delta`). Each call has an empty
//! body, and what it ensures is the law. It holds for every problem.
#![tactic(auto)]

ghost use Rattle.amr_payload.specs.Laws.{DeltaFitsSlot, DeltaReadExactlyWhereSound};
ghost use Rattle.amr_payload.specs.Laws.{PayloadFitsSlot, PayloadHasOneState, PayloadIsBytes, ReadExactlyWhereSound};

/// A payload is a list of bytes: each of its numbers is below 256.
pub fn payload_is_bytes()
    ensures { PayloadIsBytes }
{}

/// Bytes pass all tests, and are read as a state, exactly where they are its payload and the state is sound: nested,
/// synced, bounded and telescoped. So two payloads of one state are equal.
pub fn read_exactly_where_sound()
    ensures { ReadExactlyWhereSound }
{}

/// Sound states with the same payload are the same.
pub fn payload_has_one_state()
    ensures { PayloadHasOneState }
{}

/// The payload of a sound state has at most as many bytes as a slot has room for.
pub fn payload_fits_slot()
    ensures { PayloadFitsSlot }
{}

/// Bytes pass all tests of a record on an older sound state, and are read as a state, exactly where they are its record, and
/// the state is sound and later: its step is greater, and its older rows of the ledger are those of the older state.
pub fn delta_is_read_exactly_where_sound()
    ensures { DeltaReadExactlyWhereSound }
{}

/// The record of a sound state has at most as many bytes as a slot for records has room for, and so has its payload with
/// masses of 32 bits.
pub fn delta_fits_slot()
    ensures { DeltaFitsSlot }
{}
