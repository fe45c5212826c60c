//! The texts of accounts, in a buffer of fixed capacity.
ghost use Rattle.std.specs.Prelude.{◌≡◌, ◌+◌, ◌≤◌, ◌++◌};
ghost use Rattle.arrayvec.specs.ArrayVec.{array_vec_len};
ghost use Rattle.own_model.specs.Reply.{amounts_text, quota_text, share_text};
ghost use Rattle.core_calls.specs.Quotas.{quotas_account};

use arrayvec::ArrayVec;
use core_calls::Quotas;
use text_codec::{add, add_number};
use trade_base::{Caps, Ram};

/// Appends use and limit of RAM in bytes and of capabilities.
pub(crate) fn add_quotas<const N: usize>(text: &mut ArrayVec<u8, N>, quotas: Quotas)
    requires { array_vec_len text.old + 100 ≤ N }
    ensures items { text.new.items ≡ text.old.items ++ quota_text (quotas_account quotas) }
    ensures len { array_vec_len text.new ≤ array_vec_len text.old + 100 }
{
    add(text, b"ram ");
    add_share(text, quotas.ram_used.0, quotas.ram_limit.0);
    add(text, b" caps ");
    add_share(
        text,
        u64::from(quotas.caps_used.0),
        u64::from(quotas.caps_limit.0),
    );
}

/// Appends an amount of RAM in bytes and a number of capabilities.
pub(crate) fn add_amounts<const N: usize>(text: &mut ArrayVec<u8, N>, ram: Ram, caps: Caps)
    requires { array_vec_len text.old + 50 ≤ N }
    ensures items { text.new.items ≡ text.old.items ++ amounts_text
        (record { ram = ram.0; caps = caps.0 }) }
    ensures len { array_vec_len text.new ≤ array_vec_len text.old + 50 }
{
    add(text, b"ram ");
    add_number(text, ram.0);
    add(text, b" caps ");
    add_number(text, u64::from(caps.0));
}

// Appends a use and a limit with a slash between them.
fn add_share<const N: usize>(text: &mut ArrayVec<u8, N>, used: u64, limit: u64)
    requires { array_vec_len text.old + 41 ≤ N }
    ensures items { text.new.items ≡ text.old.items ++ share_text used limit }
    ensures len { array_vec_len text.new ≤ array_vec_len text.old + 41 }
{
    add_number(text, used);
    add(text, b"/");
    add_number(text, limit);
}
