//! What is lent to workers and taken back.
ghost use Rattle.std.specs.Prelude.{◌≡◌};
ghost use Rattle.std.specs.Arc.{arc_value};

use std::alloc::Global;
use std::sync::{Arc, Wait};
use std::thread::yield_now;

/// What was shared with workers, once nobody else has it any more. It waits for that: workers give their shares back before they answer.
pub fn sole<T, W: Wait>(rt: &W, shared: Arc<T, Global>) -> T
    ensures { result ≡ arc_value shared }
{
    let mut shared = shared;
    'turns: for _ in rt.forever() {
        match Arc::try_unwrap(shared) {
            Ok(whole) => return whole,
            Err(again) => shared = again,
        }
        yield_now();
    }
    unreachable!()
}
