//! Theorems for callers: how other calls affect a heap, and how a range of a payload is read and written. They do nothing
//! at run time.
ghost use Rattle.sliced_heap.specs.Theorems.{EmptyMapsHaveNoBlocks, MapsStay, MapsStayForPayers, HeapsStay, HeapsStayAmong, HeapsStayElsewhere, HeapsStayBeside, PayloadsArePoked, PayloadsAreRead, BlocksAreRegions, GapsAreBetweenBlocks};

/// States that a map stays valid for the memory while the dataspaces of its heap regions keep their lengths.
pub fn maps_stay()
    ensures empty { EmptyMapsHaveNoBlocks }
    ensures lengths { MapsStay }
    ensures payer { MapsStayForPayers }
{}

/// States that a heap stays unchanged while other dataspaces of its account change, or its map gets other blocks of its
/// account. It also stays while another account's memory changes, or another account's heap uses the same map.
pub fn heaps_stay()
    ensures own { HeapsStay }
    ensures among { HeapsStayAmong }
    ensures elsewhere { HeapsStayElsewhere }
    ensures beside { HeapsStayBeside }
{}

/// States that a write to a range found in a payload changes this payload alone, and that a read returns its bytes.
pub fn payloads_are_memory()
    ensures poked { PayloadsArePoked }
    ensures read { PayloadsAreRead }
{}

/// States that the blocks of a heap are at the addresses of their regions.
pub fn blocks_are_regions()
    ensures ranges { BlocksAreRegions }
    ensures gaps { GapsAreBetweenBlocks }
{}
