//! What opening a disk finds.
use crate::part::Part;
use crate::store::Store;

/// What a disk holds.
#[derive(Drop)]
pub enum Found {
    /// No store was made.
    Nothing,
    /// A store; its states aren't read yet.
    Ready(Store),
    /// A store of which this part is damaged, the first one found.
    Damaged(Part),
}
