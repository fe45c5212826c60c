//! Theorems on start lists as texts denote them.
ghost use Rattle.own_model.specs.Listed.{RoutesLeadToProviders};

/// States that the rules own step reads decide as the list's rules do. The first rule that matches the service and the
/// label routes to its child if the child provides the service, and else denies.
pub fn routes_lead_to_providers()
    ensures { RoutesLeadToProviders }
{}
