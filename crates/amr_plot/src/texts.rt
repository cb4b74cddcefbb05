//! Who makes the texts of a level's boxes: the caller alone, or several threads before they are put.

ghost use Rattle.std.specs.Prelude.{◌≡◌, IfSome};
ghost use Rattle.amr_plot.specs.Layers.{layer_boxes, boxes_text, IsLayer};
ghost use Rattle.amr_plot.specs.Texts.{joined};

use crate::layer::Layer;
use crate::runs::texts_by_runs;
use amr_patch::Patch;
use std::alloc::Global;
use std::thread::Threads;

/// From how many cells on the boxes of a level are shared out among threads. To make and join three threads costs a quarter of
/// a millisecond.
const MANY: u64 = 1 << 15;

/// Who makes the texts of a level's boxes: the calling thread as it puts them ([`Putter`]), or several threads before
/// they are put ([`TextThreads`]).
pub(crate) trait TextMaker {
    // That threads may share the runtime, where there is one.
    ghost may_share: { Self → Type 0 };

    /// The texts of the boxes of a level, made before they are put, some parts of boxes in each. `None` where the caller is to
    /// put the boxes itself.
    fn made_before(&self, layer: Layer<'_>) -> Option<Vec<Vec<u8>>>
        requires shared { may_share self.now }
        requires layer { IsLayer layer }
        ensures { IfSome result (λ v. joined v.items ≡ boxes_text layer.entry (layer_boxes layer.entry)) };
}

/// The calling thread puts all boxes, and takes no memory.
#[derive(Clone, Copy)]
pub(crate) struct Putter;

impl TextMaker for Putter {
    ghost may_share = { λ _. Unit {0} };

    fn made_before(&self, _layer: Layer<'_>) -> Option<Vec<Vec<u8>>> {
        None
    }
}

/// Each of several threads makes the text of a run of the boxes' parts, where these have many cells.
#[derive(Drop)]
pub(crate) struct TextThreads<'a, R> {
    pub(crate) runtime: &'a R,
    pub(crate) threads: usize,
    pub(crate) alloc: Global,
}

impl<R: Threads + Sync> TextMaker for TextThreads<'_, R> {
    ghost use Rattle.std.specs.Thread.{IsSync};

    ghost may_share = { λ _. IsSync R.row };

    fn made_before(&self, layer: Layer<'_>) -> Option<Vec<Vec<u8>>> {
        if self.threads < 2 || !are_many(layer.level(0).patches()) {
            return None;
        }
        texts_by_runs(self.runtime, self.threads, self.alloc, layer).ok()
    }
}

/// Whether the patches have many cells.
fn are_many(patches: &[Patch]) -> bool {
    let mut cells: u64 = 0;
    for p in patches {
        cells = cells.saturating_add(p.bx().area());
    }
    cells >= MANY
}
