//! Theorems on runs over lists of calls.
ghost use Rattle.own_model.specs.Theorems.{RunOverAppend, PartOverAppend};

/// States that the own run over two concatenated lists of calls is the run over the first and then over the second.
pub fn own_run_over_append()
    ensures { RunOverAppend }
{}

/// States that a component's part of two concatenated lists of calls is its part of the first followed by that of the
/// second.
pub fn own_part_over_append()
    ensures { PartOverAppend }
{}
