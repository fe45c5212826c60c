//! The text of a start list with the budgets of a report.
ghost use Rattle.std.specs.Prelude.{◌≡◌, ◌≢◌, true, IfErr, OnOk, Some};
ghost use Rattle.own_model.specs.Listed.{start_list_of};
ghost use Rattle.own_model.specs.StartList.{Boots};
ghost use Rattle.list_parser.specs.Quota.{quota_fault};
ghost use Rattle.list_parser.specs.declared.fault.BootFault.TheVariants.{NoMemory};
ghost use Rattle.budget_least.specs.WrittenList.{has_budget, has_size, size_of};

use crate::machine_size::MachineSize;
use crate::member_values::{JsonStep, MemberValue, with_values};
use budget_meter::{Budget, Bytes};
use budget_search::{AccountBudgets, BudgetChoice, boot};
use list_parser::{BootFault, StartList};
use std::alloc::{AllocError, Global};

/// The members of a start list that are written again.
#[derive(Drop)]
pub(crate) struct ListSizes {
    // The steps to each entry, in the order of the entries.
    entries: Vec<Vec<JsonStep>>,
    values: Vec<MemberValue>,
}

impl ListSizes {
    ghost use Rattle.std.specs.Prelude.{◌≡◌, IfOk, OnOk, true};
    ghost use Rattle.budget_least.specs.MemberValues.{text_with};
    ghost use Rattle.budget_least.specs.ValueWriters.{values_of};
    ghost use Rattle.budget_least.specs.WrittenList.{is_size_name, AreSizes};

    /// Returns no members of a list. Fails if the host is out of memory.
    pub(crate) fn none(alloc: Global, list: &StartList) -> Result<ListSizes, AllocError>
        ensures { IfOk result (λ sizes. AreSizes (values_of sizes.values.items)) }
    {
        Ok(ListSizes {
            entries: steps_of(alloc, list)?,
            values: Vec::new(alloc),
        })
    }

    /// Adds the size of the machine, as far as it isn't the list's.
    pub(crate) fn add_machine(
        &mut self,
        alloc: Global,
        list: &StartList,
        size: MachineSize,
    ) -> Result<(), AllocError>
        ensures { AreSizes (values_of self.old.values.items) →
            OnOk result (AreSizes (values_of self.new.values.items)) }
    {
        let mut machine = Vec::new(alloc);
        machine.push(JsonStep::Member("machine"))?;
        let MachineSize { pages, caps } = size;
        if pages != u64::from(list.pages()) {
            self.add(
                alloc,
                machine.as_slice(),
                "pages",
                format!(in alloc; "{pages}")?,
            )?;
        }
        if caps != u64::from(list.caps()) {
            self.add(
                alloc,
                machine.as_slice(),
                "caps",
                format!(in alloc; "{caps}")?,
            )?;
        }
        Ok(())
    }

    /// Adds the budget of a component, as far as it isn't the list's.
    pub(crate) fn add_budget(
        &mut self,
        alloc: Global,
        list: &StartList,
        component: usize,
        budget: Budget,
    ) -> Result<(), AllocError>
        ensures { AreSizes (values_of self.old.values.items) →
            OnOk result (AreSizes (values_of self.new.values.items)) }
    {
        let (Some(steps), Some(entry)) = (
            self.entries.get(component),
            list.entries().get(component),
        ) else {
            return Ok(());
        };
        let steps = copy_of(alloc, steps.as_slice())?;
        if entry.ram() != budget.ram {
            let ram = Bytes(budget.ram);
            self.add(
                alloc,
                steps.as_slice(),
                "quantum",
                format!(in alloc; "\"{ram}\"")?,
            )?;
        }
        if u64::from(entry.caps()) != budget.caps {
            let caps = budget.caps;
            self.add(
                alloc,
                steps.as_slice(),
                "caps",
                format!(in alloc; "{caps}")?,
            )?;
        }
        Ok(())
    }

    // Adds a member of the object to which steps lead.
    fn add(
        &mut self,
        alloc: Global,
        object: &[JsonStep],
        name: &'static str,
        text: String,
    ) -> Result<(), AllocError>
        requires { is_size_name name.now ≡ true }
        ensures { AreSizes (values_of self.old.values.items) →
            OnOk result (AreSizes (values_of self.new.values.items)) }
    {
        let mut steps = copy_of(alloc, object)?;
        steps.push(JsonStep::Member(name))?;
        self.values.push(MemberValue { steps, text })?;
        Ok(())
    }

    /// Returns the text of the list with these members. Every other byte stays.
    pub(crate) fn text(&self, alloc: Global, text: &[u8]) -> Result<Vec<u8>, AllocError>
        ensures { IfOk result (λ written.
            written.items ≡ text_with (values_of self.now.values.items) text.now) }
    {
        with_values(alloc, text, self.values.as_slice())
    }
}

/// Returns whether the entry of an account that isn't a session's has the budget that is written.
pub(crate) fn has_budget(list: &StartList, choice: BudgetChoice, account: &AccountBudgets) -> bool
    ensures { result ≡ has_budget list.now choice account.now }
{
    match (
        account.session,
        account.chosen(choice),
        list.entries().get(account.component),
    ) {
        (Some(_), _, _) | (None, None, _) => true,
        (None, Some(_), None) => false,
        (None, Some(budget), Some(entry)) => entry.ram() == budget.ram
            && u64::from(entry.caps()) == budget.caps,
    }
}

/// Returns whether a machine has a size.
pub(crate) fn has_size(list: &StartList, size: MachineSize) -> bool
    ensures { result ≡ has_size list.now size }
{
    u64::from(list.pages()) == size.pages && u64::from(list.caps()) == size.caps
}

/// Returns the size of the machine that is written: the smallest one, but no smaller than the list's. Without one it is the list's.
pub(crate) fn size_of(list: &StartList, smallest: Option<MachineSize>) -> MachineSize
    ensures { result ≡ size_of list.now smallest }
{
    let (pages, caps) = (u64::from(list.pages()), u64::from(list.caps()));
    match smallest {
        Some(size) => MachineSize {
            pages: size.pages.max(pages),
            caps: size.caps.max(caps),
        },
        None => MachineSize { pages, caps },
    }
}

/// Boots the machine of a list, if it is to boot. The error is that of the boot.
pub(crate) fn test_boot(alloc: Global, list: &StartList, is_to_boot: bool) -> Result<(), BootFault>
    ensures boots { OnOk result (is_to_boot ≡ true → Boots (start_list_of list.now)) }
    ensures fault { IfErr result (λ fault. fault ≢ NoMemory → quota_fault list.now ≡ Some fault) }
{
    if !is_to_boot {
        return Ok(());
    }
    let _core = boot(alloc, list)?;
    Ok(())
}

// Returns the steps to each entry of a list in its text.
fn steps_of(alloc: Global, list: &StartList) -> Result<Vec<Vec<JsonStep>>, AllocError> {
    let mut entries: Vec<Vec<JsonStep>> = Vec::new(alloc);
    for (component, entry) in list.entries().iter().enumerate() {
        let home = entry.home();
        let before = list
            .entries()
            .iter()
            .take(component)
            .filter(|other| other.home() == home)
            .count();
        let mut steps = match home.checked_sub(1) {
            Some(init) => steps_within(alloc, entries.get(init))?,
            None => Vec::new(alloc),
        };
        steps.push(JsonStep::Member("start"))?;
        steps.push(JsonStep::Element(before))?;
        entries.push(steps)?;
    }
    Ok(entries)
}

// Returns the steps to the list of an init, by those to its entry.
fn steps_within(alloc: Global, init: Option<&Vec<JsonStep>>) -> Result<Vec<JsonStep>, AllocError> {
    let mut steps = match init {
        Some(init) => copy_of(alloc, init.as_slice())?,
        None => Vec::new(alloc),
    };
    steps.push(JsonStep::Member("config"))?;
    Ok(steps)
}

// Copies steps.
fn copy_of(alloc: Global, steps: &[JsonStep]) -> Result<Vec<JsonStep>, AllocError> {
    let mut copy = Vec::new(alloc);
    for step in steps {
        copy.push(*step)?;
    }
    Ok(copy)
}
