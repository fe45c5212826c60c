//! Theorems for callers: how other calls affect a heap, how a range of a payload is read and written, and at which
//! addresses blocks are. They do nothing at run time.
ghost use Rattle.heap_core.specs.Theorems.{BlocksAreRegions, EmptyMapsHaveNoBlocks, HeapsStay, HeapsStayBeside, PayloadsArePoked, PayloadsAreRead};

/// States that a map without a heap region is valid for each memory of its size, and has no block.
pub fn maps_stay()
    ensures empty { EmptyMapsHaveNoBlocks }
{}

/// States that a heap stays unchanged while its chunks and large blocks keep their addresses and contents. Another
/// account's heap on the same map does not change it.
pub fn heaps_stay()
    ensures own { HeapsStay }
    ensures beside { HeapsStayBeside }
{}

/// States that a write to a range found in a payload changes this payload alone, for any bytes, and that a read returns
/// its bytes.
pub fn payloads_are_memory()
    ensures poked { PayloadsArePoked }
    ensures read { PayloadsAreRead }
{}

/// States that the chunks and large blocks of a heap are at the addresses of the regions with their numbers.
pub fn blocks_are_regions()
    ensures ranges { BlocksAreRegions }
{}
