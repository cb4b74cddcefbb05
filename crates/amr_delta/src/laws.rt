//! The laws of records.

ghost use Rattle.amr_delta.specs.Laws.{RecordHasOneState, RecordIsReadBack};

/// The record of a later sound state on a sound one is read back as that state: what `encode_delta` gives, `decode_delta` takes.
pub fn record_is_read_back()
    ensures { RecordIsReadBack }
{}

/// Later sound states with the same record on a sound one are the same, and one state has one record.
pub fn record_has_one_state()
    ensures { RecordHasOneState }
{}
