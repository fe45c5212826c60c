//! The text of a breach, as commands print it.
ghost use Rattle.std.specs.Prelude.{◌≡◌, IfOk};
ghost use Rattle.list_policy.specs.Claims.{claims_reach};

use crate::breach::{Breach, ReachBreach, leads_there, service_at};
use crate::demand::{Demand, LabelRange, PolicyLine};
use list_parser::StartList;
use list_reach::{RoutePath, RouteSummary};
use std::alloc::{AllocError, Global};
use std::fmt;

/// A breach as text: which client reaches which server, by which label and by which rules; that a client doesn't reach a server; or
/// which component has a larger budget than demanded.
#[derive(Drop)]
pub struct BreachText<'a> {
    list: &'a StartList,
    line: &'a PolicyLine,
    breach: &'a Breach,
    // Whether the breach's client reaches its server.
    reaches: bool,
    // The route path of the breach's label, if it has one.
    course: Option<RoutePath<'a>>,
}

impl<'a> BreachText<'a> {
    /// Returns the text of a breach of a line by a start list. Fails if the host is out of memory.
    pub fn of(
        alloc: Global,
        list: &'a StartList,
        line: &'a PolicyLine,
        breach: &'a Breach,
    ) -> Result<BreachText<'a>, AllocError>
        ensures { IfOk result (λ text. text.reaches ≡ claims_reach list.now breach.now) }
    {
        Ok(BreachText {
            list,
            line,
            breach,
            reaches: claims_reach(list, breach),
            course: course_of(alloc, list, breach)?,
        })
    }

    // Writes that a client reaches a server, or that it doesn't, by which labels and by which rules.
    fn show_reach<W: fmt::Write>(
        &self,
        f: &mut fmt::Formatter<W>,
        breach: &ReachBreach,
    ) -> fmt::Result {
        let entries = self.list.entries();
        let (client, server) = (entries.get(breach.client), entries.get(breach.server));
        let (Some(client), Some(server)) = (client, server) else {
            return Ok(());
        };
        let verb = if self.reaches {
            "reaches"
        } else {
            "doesn't reach"
        };
        write!(f, "{} {verb} {} by ", client.to_path(), server.to_path())?;
        match (&breach.label, &self.line.demand) {
            (Some(label), _) => write!(f, "label \"{label}\"")?,
            (None, Demand::Deny(range) | Demand::Allow(range) | Demand::Only(range)) => {
                show_range(f, range)?
            }
            (None, Demand::Isolate | Demand::AtMost(_)) => f.write_str("any label")?,
        }
        match &self.course {
            Some(course) => write!(f, ": {}", RouteSummary::of(course)),
            None => Ok(()),
        }
    }

    // Writes the limit of a component's budget, together with its reserve, and the budget.
    fn show_excess<W: fmt::Write>(&self, f: &mut fmt::Formatter<W>, number: usize) -> fmt::Result {
        let (Some(entry), Demand::AtMost(limit)) = (
            self.list.entries().get(number),
            &self.line.demand,
        ) else {
            return Ok(());
        };
        let reserve = entry.reserve_at_start();
        let ram = u128::from(entry.ram()) + u128::from(reserve.ram.0);
        let caps = u64::from(entry.caps()) + u64::from(reserve.caps.0);
        write!(
            f,
            "expected at most {} bytes of RAM and {} capabilities for {}, found {ram} and {caps}",
            limit.ram,
            limit.caps,
            entry.to_path()
        )
    }
}

// The route path of the label of a breach, if it has one.
fn course_of<'a>(
    alloc: Global,
    list: &'a StartList,
    breach: &Breach,
) -> Result<Option<RoutePath<'a>>, AllocError> {
    let Breach::Reach(found) = breach else {
        return Ok(None);
    };
    match &found.label {
        Some(label) if found.client < list.entries().len() => {
            let service = service_at(list, found.server).as_bytes();
            let course = RoutePath::of(alloc, list, found.client, service, label.as_bytes())?;
            Ok(Some(course))
        }
        _ => Ok(None),
    }
}

// Whether the label of a breach is routed from its client to its server.
fn claims_reach(list: &StartList, breach: &Breach) -> bool
    ensures { result ≡ claims_reach list.now breach.now }
{
    match breach {
        Breach::Reach(found) => match &found.label {
            Some(label) => {
                found.client < list.entries().len()
                    && leads_there(list, found.client, found.server, label)
            }
            None => false,
        },
        Breach::Excess(_) => false,
    }
}

// Writes the labels of a range, none of which is routed.
fn show_range<W: fmt::Write>(f: &mut fmt::Formatter<W>, range: &LabelRange) -> fmt::Result {
    match range {
        LabelRange::Prefix(front) => write!(f, "any label that begins with \"{front}\""),
        LabelRange::Suffix(end) => write!(f, "any label that ends with \"{end}\""),
        LabelRange::All | LabelRange::Exactly(_) => f.write_str("any label"),
    }
}

impl fmt::Display for BreachText<'_> {
    fn fmt<W: fmt::Write>(&self, f: &mut fmt::Formatter<W>) -> fmt::Result {
        match self.breach {
            Breach::Reach(breach) => self.show_reach(f, breach),
            Breach::Excess(number) => self.show_excess(f, *number),
        }
    }
}
