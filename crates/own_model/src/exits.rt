//! Theorems on exits: what an exit leaves, and that all limits of its caller return to init.
ghost use Rattle.own_model.specs.Theorems.{ExitsAreDone, ExitedAreRefused, ExitedStay, ExitsEndAll, ExitsAlone, ExitsReturnLimits};

/// States that the exit of a running script succeeds and leaves nothing of its own state. Every later call of an exited
/// component is refused with `Gone` and changes nothing. No other call ends a component.
pub fn exits_end()
    ensures done { ExitsAreDone }
    ensures away { ExitedAreRefused }
    ensures stay { ExitedStay }
    ensures all { ExitsEndAll }
    ensures alone { ExitsAlone }
{}

/// States that a successful exit returns to init all limits of its caller, of the caller's reserve and of its open
/// sessions. No other call changes init's account.
pub fn exits_return_limits()
    ensures { ExitsReturnLimits }
{}
