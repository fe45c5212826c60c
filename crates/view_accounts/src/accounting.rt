//! The observer of an account list: peaks and needs.
ghost use Rattle.std.specs.Prelude.{◌≡◌, [], IfOk};
ghost use Rattle.own_model.specs.Listed.{Listed};
ghost use Rattle.run_lines.specs.Machine.{world_of};
ghost use Rattle.view_accounts.specs.Accounting.{SeesAccounts};

use crate::needs::Needs;
use crate::peaks::Peaks;
use list_parser::StartList;
use run_lines::{Core, LineRunFault, Router, Sink, WriteBuffer};
use run_scenario::{CallObserver, ObservedCall};
use std::alloc::{AllocError, Global};

/// Observes a run, and keeps peaks and needs after the lines so far.
#[derive(Drop)]
pub(crate) struct Accounting {
    pub peaks: Peaks,
    pub needs: Needs,
}

impl Accounting {
    /// Returns the peaks and needs before the first line. The error is that the host is out of memory.
    pub(crate) fn new<R: Router + Drop>(
        alloc: Global,
        core: &Core<R>,
    ) -> Result<Accounting, AllocError>
        ensures { (listed : Listed) → core.now ≡ world_of listed →
            IfOk result (λ observer. SeesAccounts observer listed core.now []) }
    {
        let peaks = Peaks::new(alloc, core)?;
        let needs = Needs::new(alloc, core)?;
        Ok(Accounting { peaks, needs })
    }
}

impl CallObserver for Accounting {
    ghost use Rattle.std.specs.Prelude.{true};

    ghost tells = { λ _ _ _ _ _. [] };

    ghost takes = { true };

    ghost sees = { λ observer. SeesAccounts observer };

    fn tell<R: Router + Drop, K: Sink>(
        &mut self,
        core: &Core<R>,
        list: &StartList,
        heard: &ObservedCall<'_>,
        gathered: &mut WriteBuffer,
        writer: &mut K,
    ) -> Result<(), LineRunFault> {
        self.needs.hear(core, list, heard, &self.peaks)?;
        self.peaks.tell(core, list, heard, gathered, writer)
    }
}
