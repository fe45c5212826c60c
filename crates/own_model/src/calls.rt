//! Theorems on single calls: refusals, the new selector, and texts that are parsed after they were printed.
ghost use Rattle.own_model.specs.Theorems.{RefusedInOrder, RefusalsHaveReason, RefusedLeaves, NewSelectorIsLeastUnused, AddressesAreReadBack, HexIsReadBack};
ghost use Rattle.own_model.specs.Shortage.{NoHiddenShortage, NoHiddenShortageAfterLines};

/// States that a call is refused for the first reason of its line in the table of calls, and for nothing else. Each
/// refusal has its own reason. A refused call leaves any own state unchanged.
pub fn calls_are_refused_in_order()
    ensures order { RefusedInOrder }
    ensures reasons { RefusalsHaveReason }
    ensures leaves { RefusedLeaves }
{}

/// States that a call is refused for RAM or capabilities only if the caller's account, or for a request the reserve, does
/// not cover it. No call is refused for lack of a page, a table entry or a gap. This holds for each machine that has
/// booted, after any lines.
pub fn nothing_else_is_short()
    ensures call { NoHiddenShortage }
    ensures lines { NoHiddenShortageAfterLines }
{}

/// States that the selector of a new capability is the least positive number that is not in use.
pub fn new_selector_is_least_unused()
    ensures { NewSelectorIsLeastUnused }
{}

/// States that parsing a printed address below 2^64 returns the same address.
pub fn addresses_are_read_back()
    ensures { AddressesAreReadBack }
{}

/// States that parsing bytes printed as hexadecimal digits returns the same bytes.
pub fn hex_is_read_back()
    ensures { HexIsReadBack }
{}
