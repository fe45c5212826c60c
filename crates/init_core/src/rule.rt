//! Rules of the route table: the test of a session request, and the server to which it is routed.
ghost use Rattle.std.specs.Prelude.{◌≡◌, IfOk, Some};
ghost use Rattle.std.specs.Str.{bytes_eq};
ghost use Rattle.own_model.specs.Listed.{own_rule};
ghost use Rattle.own_model.specs.Routes.{as_asked, decided, matches};
ghost use Rattle.list_parser.specs.Services.{service_text};
ghost use Rattle.init_core.specs.Rows.{destination_of, model_lead, name_asked, service_named};

use list_parser::{DeclaredService, LabelTest, ListService, Name, Rule};
use std::alloc::{AllocError, Global};
use std::marker::Model;
use std::rc::Rc;
use trade_base::{BuiltInService, SERVICES};

/// The result of a rule: where it routes a session request.
#[derive(Drop)]
pub(crate) enum ResolvedTarget {
    /// The request is routed to a server of a service that the machine has built in: the service, and the server's place
    /// among the components.
    ToBuiltIn(BuiltInService, usize),
    /// The request is routed to a declared server: the service that it declares, and its place.
    ToDeclared(Rc<DeclaredService>, usize),
    /// The request is routed to no server.
    Nowhere,
    /// The request is routed out of the init, by the rules of the list above.
    Outward,
}

impl ResolvedTarget {
    /// Returns the destination that the rule decides.
    fn destination(&self) -> Destination
        ensures { result ≡ destination_of (model_lead self.now) }
    {
        match self {
            ResolvedTarget::ToBuiltIn(_, place) => Destination::Server(*place),
            ResolvedTarget::ToDeclared(_, place) => Destination::Server(*place),
            ResolvedTarget::Nowhere => Destination::Nowhere,
            ResolvedTarget::Outward => Destination::Outward,
        }
    }
}

/// The destination of a session request by the rules of one list.
#[derive(Clone, Copy)]
pub(crate) enum Destination {
    /// To the server at this place among the components.
    Server(usize),
    /// To no server.
    Nowhere,
    /// Out of the init, by the rules of the list above.
    Outward,
}

/// The test of a rule on the service of a request.
#[derive(Drop)]
pub(crate) enum ServiceTest {
    /// The service is this known one.
    Known(BuiltInService),
    /// The service has this name, which no known service has.
    Named(Name),
    /// Every service passes.
    Any,
}

impl ServiceTest {
    /// Returns the test that a service of this name passes.
    pub(crate) fn of_name(name: &Name) -> ServiceTest
        ensures { name_asked result ≡ Some name.now }
    {
        match service_named(name.as_bytes()) {
            Some(service) => ServiceTest::Known(service),
            None => ServiceTest::Named(name.copy()),
        }
    }

    /// Returns the test that a service of a list passes.
    pub(crate) fn of_service(service: ListService<'_>) -> ServiceTest
        ensures { name_asked result ≡ Some (service_text service.entry) }
    {
        match service {
            ListService::BuiltIn(service) => ServiceTest::Known(service),
            ListService::Declared(name) => ServiceTest::Named(name.copy()),
        }
    }

    /// Returns whether a service passes the test.
    fn holds(&self, service: &ServiceName<'_>) -> bool
        ensures { result ≡ as_asked (bytes_eq service.now) (name_asked self.now) }
    {
        match self {
            ServiceTest::Known(known) => service.is(*known),
            ServiceTest::Named(name) => service.text == name.as_bytes(),
            ServiceTest::Any => true,
        }
    }
}

/// The service of a request: its name, and the known service of that name, if there is one.
#[derive(Drop)]
pub(crate) struct ServiceName<'a> {
    text: &'a [u8],
    service: Option<BuiltInService>,
}

impl<'a> Model for ServiceName<'a> {
    ghost use Rattle.std.specs.Prelude.{◌≡◌, List, ℕ};
    ghost use Rattle.init_core.specs.Rows.{service_named};

    ghost Value = { List ℕ };

    ghost view = { λ name. name.text.now };

    ghost invariant = { λ name. name.service ≡ service_named name.text.now };
}

impl<'a> ServiceName<'a> {
    ghost use Rattle.trade_base.specs.Service.{service_name};

    /// Finds the known service that has a name, if any.
    pub(crate) fn new(text: &'a [u8]) -> ServiceName<'a>
        ensures { result ≡ text.now }
    {
        ServiceName {
            text,
            service: service_named(text),
        }
    }

    /// Returns whether the name is that of a service.
    fn is(&self, service: BuiltInService) -> bool
        ensures { result ≡ bytes_eq self.now (service_name service) }
    {
        self.service == Some(service)
    }
}

/// Returns the service that has a name, if there is one.
fn service_named(name: &[u8]) -> Option<BuiltInService>
    ensures { result ≡ service_named name.now }
{
    SERVICES
        .iter()
        .copied()
        .find(|service| name == service.name().as_bytes())
}

/// A rule of a list for one service, for any other, or for all unknown ones. The result is resolved, and only a label
/// decides whether the rule matches.
#[derive(Drop)]
pub(crate) struct ResolvedRule {
    service: ServiceTest,
    labels: LabelTest,
    to: ResolvedTarget,
}

impl Model for ResolvedRule {
    ghost use Rattle.own_model.specs.Routes as model;
    ghost use Rattle.init_core.specs.Rows.{model_lead, name_asked};

    ghost Value = { model.Rule };

    ghost view = { λ rule. record {
      service = name_asked rule.service;
      label = rule.labels.whole;
      label_prefix = rule.labels.prefix;
      label_suffix = rule.labels.suffix;
      to = model_lead rule.to;
    } };
}

impl ResolvedRule {
    /// Copies the label test of a rule, with a test of the service and the resolved target. Returns an error if the host is
    /// out of memory.
    pub(crate) fn new(
        alloc: Global,
        rule: &Rule,
        service: ServiceTest,
        to: ResolvedTarget,
    ) -> Result<ResolvedRule, AllocError>
        ensures { IfOk result
            (λ resolved. resolved ≡ own_rule rule.now (name_asked service) (model_lead to)) }
    {
        Ok(ResolvedRule {
            service,
            labels: rule.labels().copy(alloc)?,
            to,
        })
    }

    /// Returns whether the rule matches a service and the given label.
    fn matches(&self, service: &ServiceName<'_>, label: &[u8]) -> bool
        ensures { result ≡ matches self.now service.now label.now }
    {
        self.service.holds(service) && self.labels.holds(label)
    }

    /// Returns the destination that the rule decides.
    fn destination(&self) -> Destination
        ensures { result ≡ destination_of self.now.to }
    {
        self.to.destination()
    }
}

/// Returns the destination by the first rule that matches, or `Nowhere` if no rule matches.
pub(crate) fn resolve_request(
    rules: &[ResolvedRule],
    service: &ServiceName<'_>,
    label: &[u8],
) -> Destination
    ensures { result ≡ destination_of (decided rules.now service.now label.now) }
{
    for rule in rules {
        if rule.matches(service, label) {
            return rule.destination();
        }
    }
    Destination::Nowhere
}
