//! The codec: the state that a mesh holds as a payload, a list of bytes. Payload 1 has masses of 8 bytes, payload 2 of 4. A state
//! can be written on an older one too. Crate `amr_payload` has the definitions.
#![tactic(auto)]

mod basis;
mod changes;
mod encoders;
mod levels;
mod numbers;
mod rows;
mod sizes;
mod spans;

pub use basis::{Basis, Form, form_at, rows_before};
pub use changes::has_masses;
pub use encoders::{encode, encode2, put_state};
pub use numbers::{MassWidth, put_u64};
pub use sizes::{room, slot_size, slot_size2};
pub use spans::span_near;
