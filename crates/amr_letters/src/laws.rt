//! Laws of the cells beside a box.

ghost use Rattle.amr_letters.specs.Beside.{AreBeside, AreSlotsOne, AreSlotsWithin, HaveSlots};

/// The cells beside a box that has a cell are numbered from 0, each once. It does nothing: it stands for its contract.
pub fn cells_beside_a_box()
    ensures beside { AreBeside }
    ensures slots { HaveSlots }
    ensures within { AreSlotsWithin }
    ensures one { AreSlotsOne }
{}
