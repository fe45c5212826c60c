//! The events that replies can show.

/// An event that a reply can show.
#[derive(Clone, Copy)]
pub enum CoverageEvent {
    /// A rule decides a session request.
    Decided(RulePlace),
    /// A script requests a session of a service.
    Requested(ScriptService),
}

/// A script, by the number of its entry, and a service that it may request, by its number in the start list.
#[derive(Clone, Copy)]
pub struct ScriptService {
    pub client: usize,
    pub service: usize,
}

/// The owner of a route, by number: an entry, an init for the default route of its list, or the machine.
#[derive(Clone, Copy)]
pub enum RouteOwner {
    Own(usize),
    Inner(usize),
    Machine,
}

/// A rule, by its place in its route.
#[derive(Clone, Copy)]
pub struct RulePlace {
    pub route: RouteOwner,
    pub place: usize,
}

impl RouteOwner {
    ghost use Rattle.std.specs.Prelude.{◌≡◌};
    ghost use Rattle.view_coverage.specs.Names.{owner_number, route_word};
    ghost use Rattle.view_coverage.specs.Rules.{is_same};

    /// Returns the member of a start list that has the route.
    pub(crate) fn word(self) -> &'static str
        ensures { result.now ≡ route_word self }
    {
        match self {
            RouteOwner::Own(_) => "route",
            RouteOwner::Inner(_) | RouteOwner::Machine => "default-route",
        }
    }

    /// Returns the number of the component whose route it is, unless it is the machine's.
    pub(crate) fn number(self) -> Option<usize>
        ensures { result ≡ owner_number self }
    {
        match self {
            RouteOwner::Own(number) | RouteOwner::Inner(number) => Some(number),
            RouteOwner::Machine => None,
        }
    }

    // Whether both routes have one owner.
    fn is_same(self, other: RouteOwner) -> bool
        ensures { result ≡ is_same self other }
    {
        match (self, other) {
            (RouteOwner::Own(entry), RouteOwner::Own(number)) => entry == number,
            (RouteOwner::Inner(init), RouteOwner::Inner(number)) => init == number,
            (RouteOwner::Machine, RouteOwner::Machine) => true,
            _ => false,
        }
    }
}

impl RulePlace {
    ghost use Rattle.std.specs.Prelude.{◌≡◌};
    ghost use Rattle.view_coverage.specs.Rules.{is_rule};

    /// Returns whether both are the same rule of the same route.
    pub(crate) fn is(self, other: RulePlace) -> bool
        ensures { result ≡ is_rule self other }
    {
        self.place == other.place && self.route.is_same(other.route)
    }
}
