//! Theorems on regions: each shows a dataspace or buffer that a selector names, and no two overlap.
ghost use Rattle.own_model.specs.Theorems.{StartsSound, StepKeepsSound, RunKeepsSound, FreedHasNoRegions, FullMapsRefuse, FoundRangesFit, PokesAreRead, UnnamedIsRefused};

/// States an invariant at the start, after each call and after any calls. Each region of a component belongs to a live
/// selector of a dataspace or buffer of as many pages. It lies within the user window and overlaps no other region.
pub fn regions_stay_sound()
    ensures start { StartsSound }
    ensures step { StepKeepsSound }
    ensures run { RunKeepsSound }
{}

/// States that freeing a dataspace detaches all its regions.
pub fn freed_has_no_regions()
    ensures { FreedHasNoRegions }
{}

/// States that a full map refuses another region, and that an unused selector is refused before the map is tested.
pub fn full_maps_refuse()
    ensures full { FullMapsRefuse }
    ensures unnamed { UnnamedIsRefused }
{}

/// States that the range which a peek or a poke finds lies within one dataspace or one buffer.
pub fn found_ranges_fit()
    ensures { FoundRangesFit }
{}

/// States that a peek returns the bytes that were poked into the same range.
pub fn pokes_are_read()
    ensures { PokesAreRead }
{}
