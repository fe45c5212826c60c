//! Rules: the test of a session request, and the target to which it is routed.
ghost use Rattle.std.specs.Prelude.{◌≡◌, ◌≢◌, IfErr, IfOk, Ok, Err};
ghost use Rattle.std.specs.Str.{bytes_eq};
ghost use Rattle.std.specs.Option.{option_map, option_copied};
ghost use Rattle.std.specs.Result.{result_map_both};
ghost use Rattle.own_model.specs.Routes.{as_asked};
ghost use Rattle.serde_json.specs.View.{view};
ghost use Rattle.list_parser.specs.Labels.{is_parent, labels_of};
ghost use Rattle.list_parser.specs.View.{model_target};
ghost use Rattle.list_parser.specs.Rules.{rule_of, rules_of, service_asked, target_named};
ghost use Rattle.list_parser.specs.declared.fault.BootFault.TheVariants.{NoMemory};

use crate::fault::ConfigField;
use crate::label_test::LabelTest;
use crate::list_fault::{ExpectedValue, FaultPart, Flaw, ListFault, ListMember};
use crate::member::{is_true, name_of, optional_text, short_list};
use crate::name::Name;
use serde_json::Value;
use std::alloc::{AllocError, Global};
use std::marker::Model;

/// The target of a rule.
#[derive(Drop)]
pub enum Target {
    /// The child of this name, if it provides the service.
    Child(Name),
    /// The only child that provides the service.
    AnyChild,
    /// Out of this init, to the list that has it.
    Parent,
}

impl Target {
    /// Returns whether the target routes out of its init.
    pub fn is_parent(&self) -> bool
        ensures { result ≡ is_parent (model_target self.now) }
    {
        match self {
            Target::Child(_) | Target::AnyChild => false,
            Target::Parent => true,
        }
    }

    /// Copies the target.
    fn copy(&self) -> Target
        ensures { result ≡ self.now }
    {
        match self {
            Target::Child(name) => Target::Child(name.copy()),
            Target::AnyChild => Target::AnyChild,
            Target::Parent => Target::Parent,
        }
    }
}

/// A rule: the service and the label test that it asks for, if any, and its target.
#[derive(Drop)]
pub struct Rule {
    service: Option<Name>,
    labels: LabelTest,
    target: Target,
}

impl Model for Rule {
    ghost use Rattle.own_model.specs.Listed.{ListedRule};

    ghost Value = { ListedRule };

    ghost use Rattle.list_parser.specs.View.{model_target};

    ghost view = { λ rule. record {
      service = rule.service;
      label = rule.labels.whole;
      label_prefix = rule.labels.prefix;
      label_suffix = rule.labels.suffix;
      target = model_target rule.target;
    } };
}

impl Rule {
    /// Copies the rule.
    fn copy(&self, alloc: Global) -> Result<Rule, AllocError>
        ensures { IfOk result (λ copy. copy ≡ self.now) }
    {
        let labels = self.labels.copy(alloc)?;
        let service = match &self.service {
            Some(service) => Some(service.copy()),
            None => None,
        };
        Ok(Rule {
            service,
            labels,
            target: self.target.copy(),
        })
    }
}

impl Rule {
    ghost use Rattle.own_model.specs.Listed.{asks_for};

    /// Returns whether the rule matches a service and the label that the client gave.
    pub fn matches(&self, service: &[u8], label: &[u8]) -> bool
        ensures { result ≡ asks_for self.now service.now label.now }
    {
        self.asks_service(service) && self.labels.holds(label)
    }

    /// Returns whether the rule asks for a service, or for any.
    pub fn asks_service(&self, service: &[u8]) -> bool
        ensures { result ≡ as_asked (bytes_eq service.now) self.now.service }
    {
        match &self.service {
            Some(asked) => service == asked.as_bytes(),
            None => true,
        }
    }

    /// Returns the name of the service that the rule asks for, or `None` if it asks for any.
    pub fn service(&self) -> Option<&Name>
        ensures { option_copied result ≡ self.now.service }
    {
        match &self.service {
            Some(service) => Some(service),
            None => None,
        }
    }

    /// Returns the whole label that the rule asks for, if any.
    pub fn label(&self) -> Option<&str>
        ensures { option_copied result ≡ self.now.label }
    {
        self.labels.whole()
    }

    /// Returns how a label must begin, if the rule asks for it.
    pub fn label_prefix(&self) -> Option<&str>
        ensures { option_copied result ≡ self.now.label_prefix }
    {
        self.labels.prefix()
    }

    /// Returns how a label must end, if the rule asks for it.
    pub fn label_suffix(&self) -> Option<&str>
        ensures { option_copied result ≡ self.now.label_suffix }
    {
        self.labels.suffix()
    }

    /// Returns the test of labels that the rule asks for.
    pub fn labels(&self) -> &LabelTest
        ensures { result.now ≡ labels_of self.now }
    {
        &self.labels
    }

    /// Returns the target to which the rule routes.
    pub fn target(&self) -> &Target
        ensures { model_target result.now ≡ self.now.target }
    {
        &self.target
    }
}

/// A rule whose texts are borrowed from the JSON value.
#[derive(Drop)]
struct BorrowedRule<'v> {
    service: Option<Name>,
    label: Option<&'v str>,
    label_prefix: Option<&'v str>,
    label_suffix: Option<&'v str>,
    target: Target,
}

impl<'v> BorrowedRule<'v> {
    ghost use Rattle.list_parser.specs.View.{told_rule};

    /// Reads the rule in a JSON value. Refuses with the whole value if it is no object, and else with the first bad member:
    /// the service, the label tests, the target.
    fn read(value: &'v Value) -> Result<BorrowedRule<'v>, Flaw>
        ensures { result_map_both told_rule (λ flaw. flaw) result ≡ rule_of (view value.now) }
    {
        if !value.is_object() {
            return Err(Flaw::whole(ExpectedValue::Object));
        }
        let service = service_asked(value.get("service"), value.get("any-service"))?;
        let Some(label) = optional_text(value, "label") else {
            return Err(Flaw::of(ListMember::Label, ExpectedValue::Text));
        };
        let Some(label_prefix) = optional_text(value, "label_prefix") else {
            return Err(Flaw::of(ListMember::LabelPrefix, ExpectedValue::Text));
        };
        let Some(label_suffix) = optional_text(value, "label_suffix") else {
            return Err(Flaw::of(ListMember::LabelSuffix, ExpectedValue::Text));
        };
        let (child, any, parent) = (
            value.get("child"),
            value.get("any-child"),
            value.get("parent"),
        );
        match target_named(child, any, parent) {
            Ok(target) => Ok(BorrowedRule {
                service,
                label,
                label_prefix,
                label_suffix,
                target,
            }),
            Err(flaw) => Err(flaw),
        }
    }

    /// Copies the rule with texts of its own. Returns an error if the host is out of memory.
    fn kept(self, alloc: Global) -> Result<Rule, AllocError>
        ensures { IfOk result (λ rule. rule ≡ told_rule self.entry) }
    {
        Ok(Rule {
            service: self.service,
            labels: LabelTest::new(alloc, self.label, self.label_prefix, self.label_suffix)?,
            target: self.target,
        })
    }
}

/// Returns the name that `service` asks for, or no name for `any-service`. Refuses unless exactly one of them is there.
fn service_asked(service: Option<&Value>, any: Option<&Value>) -> Result<Option<Name>, Flaw>
    ensures { result ≡ service_asked (option_map (λ value. view value.now) service.entry)
        (option_map (λ value. view value.now) any.entry) }
{
    match (service, any) {
        (Some(service), None) => match name_of(service) {
            Some(name) => Ok(Some(name)),
            None => Err(Flaw::of(ListMember::Service, ExpectedValue::Name)),
        },
        (None, Some(any)) => if is_true(any) {
            Ok(None)
        } else {
            Err(Flaw::of(ListMember::AnyService, ExpectedValue::True))
        },
        _ => Err(Flaw::whole(ExpectedValue::OneService)),
    }
}

/// Returns the target of `child`, `any-child` or `parent`. Refuses unless exactly one of them is there.
fn target_named(
    child: Option<&Value>,
    any: Option<&Value>,
    parent: Option<&Value>,
) -> Result<Target, Flaw>
    ensures { result_map_both model_target (λ flaw. flaw) result
        ≡ target_named (option_map (λ value. view value.now) child.entry)
        (option_map (λ value. view value.now) any.entry)
        (option_map (λ value. view value.now) parent.entry) }
{
    match (child, any, parent) {
        (Some(child), None, None) => match name_of(child) {
            Some(name) => Ok(Target::Child(name)),
            None => Err(Flaw::of(ListMember::Child, ExpectedValue::Name)),
        },
        (None, Some(any), None) => if is_true(any) {
            Ok(Target::AnyChild)
        } else {
            Err(Flaw::of(ListMember::AnyChild, ExpectedValue::True))
        },
        (None, None, Some(parent)) => if is_true(parent) {
            Ok(Target::Parent)
        } else {
            Err(Flaw::of(ListMember::Parent, ExpectedValue::True))
        },
        _ => Err(Flaw::whole(ExpectedValue::OneTarget)),
    }
}

/// Copies rules.
pub(crate) fn copy_rules(alloc: Global, rules: &[Rule]) -> Result<Vec<Rule>, AllocError>
    ensures { IfOk result (λ copies. copies.items ≡ rules.now) }
{
    let mut copies = Vec::new(alloc);
    for rule in rules {
        copies.push(rule.copy(alloc)?)?;
    }
    Ok(copies)
}

/// Reads the rules that a member lists. Refuses with the member unless it is a list of at most 32 elements, and else with the
/// first element that is no rule.
pub(crate) fn read_rules(
    alloc: Global,
    field: ConfigField,
    value: &Value,
) -> Result<Vec<Rule>, ListFault>
    ensures ok { IfOk result (λ rules. rules_of field (view value.now) ≡ Ok rules.items) }
    ensures err { IfErr result
        (λ fault. fault.fault ≢ NoMemory → rules_of field (view value.now) ≡ Err fault) }
{
    let Some(list) = short_list(value) else {
        return Err(ListFault::bad(field, ExpectedValue::Rules));
    };
    let mut rules = Vec::new(alloc);
    for item in list {
        match BorrowedRule::read(item) {
            Ok(rule) => rules.push(rule.kept(alloc)?)?,
            Err(flaw) => {
                let place = FaultPart::Rule(rules.len());
                return Err(ListFault::bad_element(field, place, flaw));
            }
        }
    }
    Ok(rules)
}
