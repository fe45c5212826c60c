//! The entry of one dataspace.
ghost use Rattle.std.specs.Prelude.{◌≡◌, ◌^◌, ◌*◌, ◌<◌, Some};
ghost use Rattle.slab.specs.Slab.{ContainsKey, get};

use crate::page_runs::PageRun;
use crate::spaces::Spaces;
use trade_base::{AccountId, DsId, PAGE};

/// A dataspace: the account that pays for it, and its run of pages.
#[derive(Clone, Copy)]
pub(crate) struct Dataspace {
    pub(crate) payer: AccountId,
    pub(crate) run: PageRun,
}

/// Returns the dataspace stored under a key.
pub(crate) fn space_under(spaces: &Spaces, ds: DsId) -> Dataspace
    requires { ContainsKey spaces.now ds.0 }
    ensures { get spaces.now ds.0 ≡ Some result }
{
    spaces.under(ds.0)
}

/// Returns the size of a dataspace, in bytes.
pub(crate) fn size_of(space: Dataspace) -> u64
    requires { space.run.count * 4096 < 2 ^ 64 }
    ensures { result ≡ space.run.count * 4096 }
{
    space.run.count as u64 * PAGE
}
