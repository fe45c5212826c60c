//! The start list of a file: alone, or with its review.
ghost use Rattle.std.specs.Prelude.{◌≡◌, ◌⊎◌, is_some, true, IfErr, IfOk};
ghost use Rattle.list_faults.specs.Places.{fault_of};
ghost use Rattle.cli_base.specs.Files.{HasNoBoot};
ghost use Rattle.cli_lists.specs.ListStatus.{IsListAt, IsListOf, IsReviewAt, IsReviewOf};

use cli_base::{Host, Settings, boot_status, start_list, tell_fault};
use list_parser::StartList;
use list_review::{Review, bootable_list};
use view_diagnostics::DiagnosticForm;

/// Reads the start list of a path. If the list can't be read or has a fault, prints that and returns the exit status: 1 if the host
/// is out of memory, else 2.
pub(crate) fn list_at<H: Host>(
    host: &H,
    path: &str,
    settings: Settings<'_>,
) -> Result<StartList, u8>
    ensures read { IfOk result (IsListAt (H.text_at host.now) settings.entry path.now) }
    ensures failed { IfErr result (λ status. (status ≡ 1)
        ⊎ (status ≡ 2) × HasNoBoot (H.text_at host.now) settings.entry path.now) }
{
    match start_list(host, path, settings) {
        Ok(text) => list_of(host.rt(), settings.form, path, text.as_slice()),
        Err(status) => Err(status),
    }
}

/// Reads the start list of a path as `list_at` does, and reviews it.
pub(crate) fn review<H: Host>(host: &H, path: &str, settings: Settings<'_>) -> Result<Review, u8>
    ensures reviewed { IfOk result (IsReviewAt (H.text_at host.now) settings.entry path.now) }
    ensures failed { IfErr result (λ status. (status ≡ 1)
        ⊎ (status ≡ 2) × HasNoBoot (H.text_at host.now) settings.entry path.now) }
{
    match start_list(host, path, settings) {
        Ok(text) => review_of(host.rt(), settings.form, path, text.as_slice()),
        Err(status) => Err(status),
    }
}

// Reads the start list of a text. If the text has a fault, prints that and returns the exit status: 1 if the host is out of
// memory, else 2.
fn list_of(rt: &HostRuntime, form: DiagnosticForm, path: &str, text: &[u8]) -> Result<StartList, u8>
    ensures read { IfOk result (IsListOf text.now) }
    ensures failed { IfErr result
        (λ status. (status ≡ 1) ⊎ (status ≡ 2) × (is_some (fault_of text.now) ≡ true)) }
{
    match bootable_list(rt.alloc(), text) {
        Ok(list) => Ok(list),
        Err(placed) => {
            tell_fault(rt, form, path, &placed);
            Err(boot_status(&placed.fault))
        }
    }
}

// Reviews the start list of a text as `list_of` reads it.
fn review_of(rt: &HostRuntime, form: DiagnosticForm, path: &str, text: &[u8]) -> Result<Review, u8>
    ensures reviewed { IfOk result (IsReviewOf text.now) }
    ensures failed { IfErr result
        (λ status. (status ≡ 1) ⊎ (status ≡ 2) × (is_some (fault_of text.now) ≡ true)) }
{
    match Review::read(rt.alloc(), text) {
        Ok(review) => Ok(review),
        Err(placed) => {
            tell_fault(rt, form, path, &placed);
            Err(boot_status(&placed.fault))
        }
    }
}
