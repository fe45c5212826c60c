//! Donations as the arguments of sessions.
ghost use Rattle.std.specs.Prelude.{◌≡◌, ◌<◌, ◌^◌, true, is_some, Some, IfOk};
ghost use Rattle.own_model.specs.SessionArgs.{Arguments, arguments_of};
ghost use Rattle.budget_meter.specs.Needs.{amounts_of};
ghost use Rattle.budget_search.specs.Donations.{donated_text};

use budget_meter::Budget;
use session_proto::SessionArgs;
use std::alloc::{AllocError, Global};

/// Returns the text of arguments with a donation, and the label of other arguments. The error is that the host is out of memory.
pub(crate) fn args_with(alloc: Global, donation: Budget, args: &[u8]) -> Result<Vec<u8>, AllocError>
    ensures { IfOk result (λ text. text.items ≡ donated_text (amounts_of donation) args.now) }
{
    let (ram, caps) = (donation.ram, donation.caps);
    let mut text = format!(in alloc; "ram_quota={ram}, cap_quota={caps}, label=\"")?.into_bytes();
    text.extend_from_slice(SessionArgs::label_given(args))?;
    text.push(b'"')?;
    Ok(text)
}

/// Returns whether arguments have this donation, and the same label as other arguments.
pub(crate) fn donates(args: &[u8], donation: Budget, given: &[u8]) -> bool
    ensures read { result ≡ true → is_some (arguments_of given.now) ≡ true }
    ensures named { result ≡ true → (arguments : Arguments) →
        arguments_of given.now ≡ Some arguments →
        arguments_of args.now
        ≡ Some (record { ram = donation.ram; caps = donation.caps; label = arguments.label }) }
    ensures written { donation.caps < 2 ^ 32 → is_some (arguments_of given.now) ≡ true →
        args.now ≡ donated_text (amounts_of donation) given.now → result ≡ true }
{
    let Ok(given) = SessionArgs::read(given) else {
        return false;
    };
    match SessionArgs::read(args) {
        Ok(args) => {
            args.ram().0 == donation.ram
                && u64::from(args.caps().0) == donation.caps
                && args.label() == given.label()
        }
        Err(_) => false,
    }
}
