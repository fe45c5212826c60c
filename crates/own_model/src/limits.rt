//! Theorems on limits: how a call changes them, and the balance of the whole machine.
ghost use Rattle.own_model.specs.Theorems.{ServersStay, CapallocLacksCapsAlone, StepKeepsLimits, OthersKeepOwnLimits, StepKeepsWithinLimits, StepKeepsAllWithin, RunKeepsWithinLimits, StartsWithoutUse, RunKeepsUse, StepKeepsBalance, LinesKeepBalance, LimitsFitTheMachine, StepKeepsBalanceFor, LinesKeepBalanceFor};

/// States that every call leaves a server's own state unchanged.
pub fn servers_stay()
    ensures { ServersStay }
{}

/// States that only an exit changes the sum of the limits of the caller, its reserve and its open sessions. Only session
/// calls, requests and yields change the limits of the caller's account alone. A successful exit leaves none of these
/// limits. No call makes an account use more than its limit.
pub fn calls_keep_limits()
    ensures same { StepKeepsLimits }
    ensures own { OthersKeepOwnLimits }
    ensures within { StepKeepsWithinLimits }
    ensures all { StepKeepsAllWithin }
    ensures run { RunKeepsWithinLimits }
{}

/// States that the creation of an RPC object is refused only if the account has no free capability.
pub fn capalloc_lacks_caps_alone()
    ensures { CapallocLacksCapsAlone }
{}

/// States what an account uses at the start and after any calls: the charges of the component's dataspaces and heap. Each
/// of these and each RPC object also uses one capability. Sessions and their buffers are charged to accounts of their
/// own, and nothing is charged to a reserve.
pub fn use_is_what_is_held()
    ensures start { StartsWithoutUse }
    ensures run { RunKeepsUse }
{}

/// States that each call, and each list of lines, keeps a balanced machine balanced, and that a component's limits then
/// fit the machine. Each component with its reserve and open sessions keeps the budget of its start, or nothing after its
/// exit, and init has the rest.
pub fn calls_keep_balance()
    ensures call { StepKeepsBalance }
    ensures lines { LinesKeepBalance }
    ensures fit { LimitsFitTheMachine }
    ensures call_for { StepKeepsBalanceFor }
    ensures lines_for { LinesKeepBalanceFor }
{}
