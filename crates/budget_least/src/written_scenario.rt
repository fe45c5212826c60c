//! The text of a scenario with the donations that were measured.
ghost use Rattle.std.specs.Prelude.{◌≡◌, ◌==◌, ◌++◌, ℕ, map, IfOk, OnOk};
ghost use Rattle.std.specs.List.{flat_map, slice_split};
ghost use Rattle.std.specs.Option.{option_or};
ghost use Rattle.budget_least.specs.WrittenScenario.{donation_at, donation_for, donation_of, line_of, scenario_text, separator, set_at};

use crate::written_donation::with_donation;
use budget_meter::Budget;
use budget_search::ComponentLine;
use std::alloc::{AllocError, Global};

/// Returns the text of a scenario with the donations of these lines, by their numbers. The error is that the host is out of memory.
pub(crate) fn scenario_with(
    alloc: Global,
    text: &[u8],
    steps: &[Vec<ComponentLine>],
) -> Result<Vec<u8>, AllocError>
    ensures { IfOk result (λ told. told.items
        ≡ scenario_text (donation_of (flat_map (λ lines. lines.items) steps.now)) text.now) }
{
    let donations = donations_of(alloc, steps)?;
    let lines = lines_of(alloc, text)?;
    let mut told = Vec::new(alloc);
    for place in 0..lines.len() {
        told.extend_from_slice(separator(place))?;
        let donation = donation_at(donations.as_slice(), place + 1);
        add_line(alloc, &mut told, lines[place], donation)?;
    }
    Ok(told)
}

// Returns what is before the line at a place.
fn separator(place: usize) -> &'static [u8]
    ensures { result.now ≡ separator place }
{
    if place == 0 { b"" } else { b"\n" }
}

// Adds a line, with a donation if it has one.
fn add_line(
    alloc: Global,
    told: &mut Vec<u8>,
    line: &[u8],
    donation: Option<Budget>,
) -> Result<(), AllocError>
    ensures { OnOk result (told.new.items ≡ told.old.items ++ line_of donation line.now) }
{
    match donation {
        Some(donation) => {
            told.extend_from_slice(with_donation(alloc, line, donation)?.as_slice())
        }
        None => told.extend_from_slice(line),
    }
}

/// Returns the lines of a text. The error is that the host is out of memory.
pub(crate) fn lines_of(alloc: Global, text: &[u8]) -> Result<Vec<&[u8]>, AllocError>
    ensures { IfOk result (λ lines. map (λ line. line.now) lines.items
        ≡ slice_split (λ b. b == 10) text.now) }
{
    text.split(|byte| *byte == b'\n').collect(alloc)
}

// Returns the donations that were set, at the numbers of their lines.
fn donations_of(
    alloc: Global,
    steps: &[Vec<ComponentLine>],
) -> Result<Vec<Option<Budget>>, AllocError>
    ensures { IfOk result (λ donations. (number : ℕ) → donation_at donations.items number
        ≡ donation_of (flat_map (λ lines. lines.items) steps.now) number) }
{
    let mut donations = Vec::new(alloc);
    for lines in steps {
        add_donations(&mut donations, lines.as_slice())?;
    }
    Ok(donations)
}

// Sets the donations of a component's lines.
fn add_donations(
    donations: &mut Vec<Option<Budget>>,
    lines: &[ComponentLine],
) -> Result<(), AllocError>
    ensures { OnOk result ((number : ℕ) → donation_at donations.new.items number
        ≡ option_or (donation_of lines.now number) (donation_at donations.old.items number)) }
{
    for line in lines {
        add_donation(donations, line)?;
    }
    Ok(())
}

// Sets the donation of a line, if it has one.
fn add_donation(donations: &mut Vec<Option<Budget>>, line: &ComponentLine) -> Result<(), AllocError>
    ensures { OnOk result ((number : ℕ) → donation_at donations.new.items number
        ≡ option_or (donation_for line.now number) (donation_at donations.old.items number)) }
{
    match line.donation {
        Some(donation) => set_donation(donations, line.number as usize, donation),
        None => Ok(()),
    }
}

// Sets the donation of the line of a number.
fn set_donation(
    donations: &mut Vec<Option<Budget>>,
    number: usize,
    donation: Budget,
) -> Result<(), AllocError>
    ensures { OnOk result ((other : ℕ) → donation_at donations.new.items other
        ≡ set_at number donation (donation_at donations.old.items) other) }
{
    while donations.len() <= number {
        donations.push(None)?;
    }
    donations[number] = Some(donation);
    Ok(())
}

// Returns the donation of the line of a number.
fn donation_at(donations: &[Option<Budget>], number: usize) -> Option<Budget>
    ensures { result ≡ donation_at donations.now number }
{
    match donations.get(number) {
        Some(donation) => *donation,
        None => None,
    }
}
