//! Theorems on reserves: how limits move between an account and its component's reserve.
ghost use Rattle.own_model.specs.ReserveTheorems.{OthersKeepReserve, LimitsAreMoved, YieldsAreRequested, RequestsAreYielded};

/// States that requests and yields move limits between the caller's account and its reserve, and create none. No other
/// call changes the reserve, except that a successful exit leaves none.
pub fn reserves_are_kept()
    ensures others { OthersKeepReserve }
    ensures moved { LimitsAreMoved }
{}

/// States that a request undoes the same yield, and that a yield undoes the same request.
pub fn yields_and_requests_undo()
    ensures yielded { YieldsAreRequested }
    ensures requested { RequestsAreYielded }
{}
