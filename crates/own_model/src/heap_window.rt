//! Theorems on the heap window: it always has a gap, and the gap's address does not depend on the machine.
ghost use Rattle.own_model.specs.HeapWindow.{HeapHasGap, HeapGapsAgree};

/// States that the regions a machine can hold leave a gap in its heap window for as many pages as the machine has. The
/// first gap is at the same address in the window of any larger machine.
pub fn heap_has_gap()
    ensures there { HeapHasGap }
    ensures agree { HeapGapsAgree }
{}
