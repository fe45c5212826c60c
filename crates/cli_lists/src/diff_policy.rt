//! The breaches of a policy by two start lists.
ghost use Rattle.std.specs.Prelude.{◌≡◌, ◌⊎◌, [], map, IfErr, IfOk};
ghost use Rattle.std.specs.Option.{option_copied};
ghost use Rattle.list_policy.specs.Reading.{Reads};
ghost use Rattle.list_diff.specs.Breaches.{breach_changes, change_at};
ghost use Rattle.cli_lists.specs.Comparison.{AreBreachesBy, AreBreachesOf, HasPolicyFault, RefusesPolicy};

use crate::diff_files::ListPair;
use cli_base::{
    Host, REFUSED, Spot, made_or_status, policy_spot, policy_text, report_error, summarize_errors,
};
use list_diff::{BreachChange, PlacedBreach, breach_changes, placed_breaches};
use list_policy::{Policy, PolicyFault};
use std::alloc::{AllocError, Global};
use view_diagnostics::DiagnosticForm;

/// The breaches of a policy by two start lists.
#[derive(Drop)]
pub(crate) struct PolicyBreaches<'a> {
    before: Vec<PlacedBreach<'a>>,
    after: Vec<PlacedBreach<'a>>,
}

impl<'a> PolicyBreaches<'a> {
    /// Checks two lists against the policy of a path, if there is one. It has to be a policy for the list after; a line with a fault
    /// for the list before has no breach there. If the policy isn't read or has a fault, prints that and returns the exit status: 1 if
    /// the host is out of memory, else 2.
    pub(crate) fn of<H: Host>(
        host: &H,
        lists: ListPair<'a>,
        path: Option<&str>,
        form: DiagnosticForm,
    ) -> Result<PolicyBreaches<'a>, u8>
        ensures found { IfOk result (λ found. AreBreachesBy (H.text_at host.now) (option_copied path.entry)
            lists.entry.before.list.now lists.entry.after.list.now found.before.items found.after.items) }
        ensures stopped { IfErr result (λ status. (status ≡ 1) ⊎ (status ≡ 2)
            × RefusesPolicy (H.text_at host.now) (option_copied path.entry) lists.entry.after.list.now) }
    {
        let rt = host.rt();
        let Some(path) = path else {
            return Ok(PolicyBreaches {
                before: Vec::new(rt.alloc()),
                after: Vec::new(rt.alloc()),
            });
        };
        match policy_text(host, path) {
            Ok(text) => breaches_of(rt, lists, path, text.as_slice(), form),
            Err(why) => {
                report_error(rt, form, Spot::nowhere(), &why);
                Err(why.exit_status())
            }
        }
    }

    /// Returns the breaches that one list alone has. Fails if the host is out of memory.
    pub(crate) fn changes(&self, alloc: Global) -> Result<Vec<BreachChange<'_>>, AllocError>
        ensures { IfOk result (λ found. map change_at found.items
            ≡ breach_changes self.now.before.items self.now.after.items) }
    {
        breach_changes(alloc, self.before.as_slice(), self.after.as_slice())
    }
}

// Checks two lists against the text of a policy. If the policy has a fault for the list after, prints that and returns the exit
// status 2. If the host is out of memory, prints that and returns the exit status 1.
fn breaches_of<'a>(
    rt: &HostRuntime,
    lists: ListPair<'a>,
    path: &str,
    text: &[u8],
    form: DiagnosticForm,
) -> Result<PolicyBreaches<'a>, u8>
    ensures found { IfOk result (λ found. AreBreachesOf text.now
        lists.entry.before.list.now lists.entry.after.list.now found.before.items found.after.items) }
    ensures stopped { IfErr result (λ status. (status ≡ 1) ⊎ (status ≡ 2)
        × HasPolicyFault text.now lists.entry.after.list.now) }
{
    let policy = made_or_status(rt, Policy::read(rt.alloc(), lists.after.list, text))?;
    let faults = policy.faults();
    if !faults.is_empty() {
        return Err(refuse_policy(rt, form, path, faults));
    }
    made_or_status(rt, breaches_by(rt.alloc(), lists, text, &policy))
}

// Prints the faults of a policy, and returns the exit status.
fn refuse_policy(
    rt: &HostRuntime,
    form: DiagnosticForm,
    path: &str,
    faults: &[PolicyFault<'_>],
) -> u8
    ensures { result ≡ 2 }
{
    for fault in faults {
        let spot = policy_spot(path, fault.line, fault.column);
        report_error(rt, form, spot, &fault.flaw);
    }
    summarize_errors(rt, form, faults.len() as u64);
    REFUSED
}

// Returns the breaches of a policy's text by two lists; for the list after the policy is read.
fn breaches_by<'a>(
    alloc: Global,
    lists: ListPair<'a>,
    text: &[u8],
    policy: &Policy<'_>,
) -> Result<PolicyBreaches<'a>, AllocError>
    requires reads { Reads lists.after.list.now text.now policy.now }
    requires faults { policy.now.faults.items ≡ [] }
    ensures { IfOk result (λ found. AreBreachesOf text.now
        lists.entry.before.list.now lists.entry.after.list.now found.before.items found.after.items) }
{
    let old = Policy::read(alloc, lists.before.list, text)?;
    let before = placed_breaches(alloc, lists.before.list, old.lines())?;
    let after = placed_breaches(alloc, lists.after.list, policy.lines())?;
    Ok(PolicyBreaches { before, after })
}
