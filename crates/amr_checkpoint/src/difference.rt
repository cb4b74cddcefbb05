//! Where two lists of bytes differ.
ghost use Rattle.std.specs.Prelude.{◌≡◌, ◌↔◌, IfSome, IsNone};
ghost use Rattle.amr_checkpoint.specs.Refusals.{IsFirstDifference};

/// The first place, from 0, at which two lists of bytes differ. Where one is the front of the other that is the shorter length.
/// None exactly where they are the same.
pub fn first_difference(a: &[u8], b: &[u8]) -> Option<usize>
    ensures place { IfSome result (IsFirstDifference a.now b.now) }
    ensures none { IsNone result ↔ (a.now ≡ b.now) }
{
    let common = a.len().min(b.len());
    for place in 0..common {
        if a[place] != b[place] {
            return Some(place);
        }
    }
    if a.len() == b.len() {
        None
    } else {
        Some(common)
    }
}
