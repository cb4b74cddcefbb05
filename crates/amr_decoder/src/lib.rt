//! The decoders: a payload's bytes, read and tested field by field as crate `amr_payload` defines it, as a mesh. Its state is
//! sound, and the bytes are its payload. Where a test fails they are bad, at the place of the first that does. Crate
//! `amr_codec` has the encoders.
//!
//! - [`decode`], [`decode2`]: a whole payload, with masses of 8 or 4 bytes.
//! - [`read_state`]: a state by itself, or on an older one.
//! - [`Reader`]: the bytes that are left, number by number.
//! - [`read_step`], [`read_ledger`]: the step and the ledger.
//! - [`read_level`]: a level's boxes, and their masses in patches.
//! - [`stands_over`]: whether a level is nested in the next coarser one and in sync with it.
//! - [`read_finer`], [`read_levels`]: a level over the next coarser one, and all levels.
#![tactic(auto)]

mod apart;
mod boxes;
mod changed;
mod decoders;
mod faults;
mod fill;
mod finer;
mod grid;
mod grids;
mod ledger;
mod levels;
mod made;
mod masses;
mod reader;
mod stands;
mod sync;
mod totals;

pub use decoders::{decode, decode2, read_state};
pub use faults::CodecFault;
pub use finer::{read_finer, read_levels};
pub use ledger::{read_ledger, read_step};
pub use levels::read_level;
pub use masses::MassKind;
pub use reader::Reader;
pub use stands::stands_over;
