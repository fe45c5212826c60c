//! Findings: parts of a start list that are probably not intended.
ghost use Rattle.std.specs.Prelude.{◌≡◌, IfOk, Some};
ghost use Rattle.std.specs.Fmt.{WritesOnOk};
ghost use Rattle.std.specs.Option.{option_copied};
ghost use Rattle.list_findings.specs.Phrases.{finding_text, near_text, phrase_of, phrase_text, prefix_text, service_text, value_at, value_text};

use list_parser::Name;
use list_parts::{BudgetAmount, ListPart, show_escaped, show_quoted};
use std::alloc::{AllocError, Global};
use std::fmt;
use std::marker::Model;

/// A finding: a part of a start list that is probably not intended, and why.
#[derive(Drop)]
pub struct Finding {
    /// The part of the list.
    pub part: ListPart,
    /// The remark on the part.
    pub remark: Remark,
}

impl fmt::Display for Finding {
    ghost output = { λ finding. Some (finding_text finding) };

    fn fmt<W: fmt::Write>(&self, f: &mut fmt::Formatter<W>) -> fmt::Result {
        write!(f, "{}: {}", self.part, self.remark)
    }
}

/// A text of a start list that a finding prints, such as the name of a member.
#[derive(Drop)]
pub struct FindingText {
    text: String,
}

impl Model for FindingText {
    ghost use Rattle.std.specs.Prelude.{List, ℕ, string_bytes};

    ghost Value = { List ℕ };

    ghost view = { λ written. string_bytes written.text };
}

impl FindingText {
    /// Returns a copy of a text. Fails if the host is out of memory.
    pub(crate) fn copy_of(alloc: Global, text: &str) -> Result<FindingText, AllocError>
        ensures { IfOk result (λ written. written ≡ text.now) }
    {
        Ok(FindingText {
            text: String::from_str(alloc, text)?,
        })
    }

    /// Returns the name as text, without quotes around it.
    pub fn as_str(&self) -> &str
        ensures { result.now ≡ self.now }
    {
        self.text.as_str()
    }
}

/// The name of a member that is read of a start list.
#[derive(Drop)]
pub struct StaticName(pub(crate) &'static str);

impl Model for StaticName {
    ghost use Rattle.std.specs.Prelude.{List, ℕ};

    ghost Value = { List ℕ };

    ghost view = { λ known. known.0.now };
}

impl StaticName {
    /// Returns the name as text, without quotes around it.
    pub fn as_str(&self) -> &'static str
        ensures { result.now ≡ self.now }
    {
        self.0
    }
}

/// A remark on a part of a start list.
#[derive(Drop)]
pub enum Remark {
    /// An earlier member of the same object has this name, too.
    GivenTwice(FindingText),
    /// Nothing reads a member. The second name is the nearest member that is read, if one is near.
    Unread(FindingText, Option<StaticName>),
    /// No entry has the name of a rule's child. The second name is the nearest one, if one is near.
    NoChild(Name, Option<Name>),
    /// A rule's child doesn't provide a service that the rule is asked for.
    NotProvided(Name, Name),
    /// No entry provides a service that a rule routes to any child.
    NoProvider(Name),
    /// Several entries provide a service that a rule routes to any child.
    SeveralProviders(Name),
    /// An earlier rule of the same list, at this place, matches all requests that the rule matches.
    Hidden(usize),
    /// A rule asks for a service that no server has. The second name is the service that differs in case alone.
    OtherCase(Name, Name),
    /// A rule decides nothing.
    Idle,
    /// A rule decides nothing, since this member asks for a text that no label has.
    NoLabel(StaticName),
    /// A rule decides nothing, since it asks an outer list for a label that ends in the arrow.
    Arrow,
    /// A rule of an outer list asks for a label that begins with the names of one entry, and this one's names begin so, too.
    LetsIn(FindingText, Name),
    /// A rule of an outer list asks how a label ends.
    ChosenEnd,
    /// A server doesn't provide its service.
    NotProviding(Name),
    /// No script's session request is routed to the server.
    Unreached,
    /// A request is routed to a server, but the RAM of the account and the reserve together is insufficient for a session.
    LowRam(u64, u64),
    /// A request is routed to a server, but the capabilities of the account and the reserve together are insufficient for a
    /// session.
    LowCaps(u32, u32),
    /// An entry of the outermost list has the name of the machine's own account.
    MachinesName,
    /// The RAM isn't whole pages.
    PartPages(u64),
    /// The RAM of the reserve isn't whole pages.
    PartReserve(u64),
    /// The list expects a finding of this name that there isn't. The name is empty for what is no text.
    Unmet(FindingText),
}

impl fmt::Display for Remark {
    ghost output = { λ remark. Some (phrase_text (phrase_of remark)) };

    fn fmt<W: fmt::Write>(&self, f: &mut fmt::Formatter<W>) -> fmt::Result {
        f.write_str(self.before())?;
        write!(f, "{}", self.value())?;
        f.write_str(self.after())?;
        write!(f, "{}", NearName(self.near()))
    }
}

impl Remark {
    ghost use Rattle.list_findings.specs.Expectations.{remark_name};

    /// Returns the name by which a list expects a finding with the remark: the front of its text.
    pub(crate) fn name(&self) -> &'static str
        ensures { result.now ≡ remark_name self.now }
    {
        match self {
            Remark::GivenTwice(_) => "duplicate member",
            Remark::Unread(_, _) => "unknown member",
            Remark::NoChild(_, _) | Remark::NotProvided(_, _) => "child",
            Remark::NoProvider(_) | Remark::SeveralProviders(_) => "any-child",
            Remark::Hidden(_) | Remark::NoLabel(_) | Remark::Arrow => "unreachable rule",
            Remark::OtherCase(_, _) => "service",
            Remark::Idle => "unused rule",
            Remark::LetsIn(_, _) => "label_prefix",
            Remark::ChosenEnd => "label_suffix",
            Remark::NotProviding(_) => "provides",
            Remark::Unreached => "unused server",
            Remark::LowRam(_, _) | Remark::PartPages(_) => "quantum",
            Remark::LowCaps(_, _) => "caps",
            Remark::MachinesName => "name",
            Remark::PartReserve(_) => "reserve",
            Remark::Unmet(_) => "_expected",
        }
    }

    // The text before the value.
    fn before(&self) -> &'static str
        ensures { result.now ≡ (phrase_of self.now).before }
    {
        match self {
            Remark::GivenTwice(_) => "duplicate member `",
            Remark::Unread(_, _) => "unknown member `",
            Remark::NoChild(_, _) => "child: unknown component `",
            Remark::NotProvided(_, _) => "child: `",
            Remark::NoProvider(_) => "any-child: no component provides `",
            Remark::SeveralProviders(_) => "any-child: several components provide `",
            Remark::Hidden(_) => "unreachable rule: rule [",
            Remark::OtherCase(_, _) => "service: unknown service `",
            Remark::Idle => {
                "unused rule: it decides no session request of a script, with any label"
            }
            Remark::NoLabel(_) => "unreachable rule: ",
            Remark::Arrow => {
                "unreachable rule: label: without a label this list sees the names alone, without the arrow"
            }
            Remark::LetsIn(_, _) => "label_prefix: ",
            Remark::ChosenEnd => {
                "label_suffix: a client with a label chooses its end, and the suffix may reach into the names"
            }
            Remark::NotProviding(_) => "provides: missing `",
            Remark::Unreached => "unused server: no script's session request is routed to it",
            Remark::LowRam(_, _) | Remark::LowCaps(_, _) => "",
            Remark::MachinesName => "name: `init` is the machine's own account in account lists",
            Remark::PartPages(_) => "quantum: expected whole pages of 4096 bytes, found ",
            Remark::PartReserve(_) => "reserve: expected whole pages of 4096 bytes, found ",
            Remark::Unmet(_) => "_expected: no finding of this part is named `",
        }
    }

    // The value, if there is one.
    fn value(&self) -> RemarkValue<'_>
        ensures { value_at result ≡ (phrase_of self.now).value }
    {
        match self {
            Remark::GivenTwice(text) | Remark::Unread(text, _) | Remark::Unmet(text) => {
                RemarkValue::Escaped(text.as_str())
            }
            Remark::NoChild(name, _)
            | Remark::NoProvider(name)
            | Remark::SeveralProviders(name)
            | Remark::OtherCase(name, _)
            | Remark::NotProviding(name) => RemarkValue::Name(name.as_str()),
            Remark::NotProvided(child, service) => {
                RemarkValue::Service(child.as_str(), service.as_str())
            }
            Remark::LetsIn(front, name) => RemarkValue::Prefix(front.as_str(), name.as_str()),
            Remark::NoLabel(member) => RemarkValue::Name(member.as_str()),
            Remark::Hidden(rule) => RemarkValue::Number(*rule as u64),
            Remark::LowRam(own, kept) => RemarkValue::Ram(*own, *kept),
            Remark::LowCaps(own, kept) => RemarkValue::Caps(*own, *kept),
            Remark::PartPages(ram) | Remark::PartReserve(ram) => RemarkValue::Number(*ram),
            Remark::Idle
            | Remark::Arrow
            | Remark::ChosenEnd
            | Remark::Unreached
            | Remark::MachinesName => RemarkValue::Nothing,
        }
    }

    // The text after the value.
    fn after(&self) -> &'static str
        ensures { result.now ≡ (phrase_of self.now).after }
    {
        match self {
            Remark::GivenTwice(_) => "`; the last one counts",
            Remark::Unread(_, _)
            | Remark::NoChild(_, _)
            | Remark::NotProvided(_, _)
            | Remark::NoProvider(_)
            | Remark::OtherCase(_, _)
            | Remark::Unmet(_) => "`",
            Remark::SeveralProviders(_) => "`, so the request is denied",
            Remark::Hidden(_) => "] of this list decides each of its requests first",
            Remark::NoLabel(_) => ": no label has this text",
            Remark::NotProviding(_) => "`, which this binary can provide",
            Remark::LowRam(_, _) => " bytes are insufficient for a session; expected at least 4096",
            Remark::LowCaps(_, _) => {
                " capabilities are insufficient for a session; expected at least 2"
            }
            Remark::PartPages(_) | Remark::PartReserve(_) => " bytes",
            Remark::Idle
            | Remark::Arrow
            | Remark::LetsIn(_, _)
            | Remark::ChosenEnd
            | Remark::Unreached
            | Remark::MachinesName => "",
        }
    }

    // The name that may have been meant, if there is one.
    fn near(&self) -> Option<&str>
        ensures { option_copied result ≡ (phrase_of self.now).near }
    {
        match self {
            Remark::Unread(_, Some(known)) => Some(known.as_str()),
            Remark::NoChild(_, Some(name)) | Remark::OtherCase(_, name) => Some(name.as_str()),
            _ => None,
        }
    }
}

// The value of a remark, which is between two texts.
#[derive(Clone, Copy)]
enum RemarkValue<'a> {
    Nothing,
    Name(&'a str),
    // A text of the list, which may have any characters.
    Escaped(&'a str),
    // A component, and the service that it doesn't provide.
    Service(&'a str, &'a str),
    // A prefix of labels, and the component whose labels begin with it too.
    Prefix(&'a str, &'a str),
    Number(u64),
    // The RAM of an account, and of its reserve.
    Ram(u64, u64),
    // The capabilities of an account, and of its reserve.
    Caps(u32, u32),
}

impl fmt::Display for RemarkValue<'_> {
    ghost output = { λ value. Some (value_text (value_at value)) };

    fn fmt<W: fmt::Write>(&self, f: &mut fmt::Formatter<W>) -> fmt::Result {
        match self {
            RemarkValue::Nothing => Ok(()),
            RemarkValue::Name(name) => f.write_str(name),
            RemarkValue::Escaped(text) => show_escaped(f, text),
            RemarkValue::Service(child, service) => show_service(f, child, service),
            RemarkValue::Prefix(front, name) => show_prefix(f, front, name),
            RemarkValue::Number(number) => write!(f, "{number}"),
            RemarkValue::Ram(own, kept) => write!(f, "{}", BudgetAmount::ram(*own, *kept)),
            RemarkValue::Caps(own, kept) => write!(f, "{}", BudgetAmount::caps(*own, *kept)),
        }
    }
}

// A component, and the service that it doesn't provide.
fn show_service<W: fmt::Write>(f: &mut fmt::Formatter<W>, child: &str, service: &str) -> fmt::Result
    ensures { WritesOnOk W.write_str_gives f.old result (service_text child.now service.now) f.new }
{
    write!(f, "{child}` doesn't provide `{service}")
}

// A prefix, and the component whose labels begin with it too.
fn show_prefix<W: fmt::Write>(f: &mut fmt::Formatter<W>, front: &str, name: &str) -> fmt::Result
    ensures { WritesOnOk W.write_str_gives f.old result (prefix_text front.now name.now) f.new }
{
    show_quoted(f, front)?;
    write!(f, " is a prefix of `{name}` too")
}

// The name that may have been meant, if there is one.
#[derive(Clone, Copy)]
struct NearName<'a>(Option<&'a str>);

impl fmt::Display for NearName<'_> {
    ghost output = { λ near. Some (near_text (option_copied near.0)) };

    fn fmt<W: fmt::Write>(&self, f: &mut fmt::Formatter<W>) -> fmt::Result {
        match self.0 {
            Some(near) => write!(f, "; did you mean `{near}`?"),
            None => Ok(()),
        }
    }
}
