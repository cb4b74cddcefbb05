//! Delta checkpoints: the record of a state on an older one, a list of bytes that has only what changed. Crate `amr_payload` has
//! its definition, in `specs/Delta`.
//!
//! - [`delta_size`]: the greatest length of a record.
//! - [`encode_delta`]: the record of a state.
//! - [`decode_delta`]: the state that bytes are a record of.
//! - [`record_is_read_back`], [`record_has_one_state`]: laws, each the contract of a call with an empty body.
#![tactic(auto)]

mod delta_record;
mod laws;
mod recorded_state;

pub use delta_record::{delta_size, encode_delta};
pub use laws::{record_has_one_state, record_is_read_back};
pub use recorded_state::decode_delta;
