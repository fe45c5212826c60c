//! The smallest machine for a sum of budgets.
ghost use Rattle.std.specs.Prelude.{◌≡◌};
ghost use Rattle.budget_meter.specs.Needs.{amounts_of};
ghost use Rattle.budget_least.specs.MachineSizes.{HasSmallest};

use budget_meter::Budget;
use budget_search::LARGEST;
use trade_base::PAGE;

/// The fewest pages of a machine, and the fewest capabilities.
const SMALLEST: u64 = 16;

/// The most pages of a machine, and the most capabilities.
const MOST: u64 = LARGEST as u64;

/// The size of a machine.
#[derive(Clone, Copy, PartialEq, Eq)]
pub struct MachineSize {
    /// The number of pages of 4096 bytes.
    pub pages: u64,
    /// The number of capabilities.
    pub caps: u64,
}

impl MachineSize {
    /// Returns the smallest machine that covers what its init hands out in all, or none if the largest machine doesn't.
    pub fn covering(sum: Budget) -> Option<MachineSize>
        ensures { HasSmallest (amounts_of sum) result }
    {
        let pages = sum.ram.div_ceil(PAGE).max(SMALLEST);
        if pages > MOST {
            return None;
        }
        let caps = sum.caps.max(SMALLEST);
        if caps > MOST {
            return None;
        }
        Some(MachineSize { pages, caps })
    }
}
