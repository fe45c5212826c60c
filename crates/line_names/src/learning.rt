//! The bindings of a reply.
ghost use Rattle.std.specs.Prelude.{◌≡◌, map, OnOk};
ghost use Rattle.line_names.specs.Learning.{learnt, learnt_of};
ghost use Rattle.line_names.specs.Views.{filled_view, hole_view};

use crate::bound_names::BoundName;
use crate::filling::FilledLine;
use crate::name_table::NameTable;
use line_friendly::{matched_by, meets};
use std::alloc::AllocError;

impl NameTable {
    /// Binds the names of a filled line to the parts of a reply that their stars match, if the reply matches its expectation. The
    /// error is that the host is out of memory.
    #[tactic(auto, using(crate::proofs::KnownLemmas::nothing_learnt))]
    pub fn learn(&mut self, filled: &FilledLine<'_>, reply: &[u8]) -> Result<(), AllocError>
        ensures { OnOk result (self.new ≡ learnt self.old (filled_view filled.now) reply.now) }
    {
        // Most lines bind nothing.
        let holes = filled.holes.as_slice();
        if holes.is_empty() {
            return Ok(());
        }
        if meets(reply, filled.expected) {
            self.bind_all(reply, filled.expected, holes)
        } else {
            Ok(())
        }
    }

    // Binds each name to the part that its star matches.
    #[tactic(auto, using(crate::proofs::KnownLemmas::learns))]
    fn bind_all(
        &mut self,
        reply: &[u8],
        expected: &[u8],
        holes: &[BoundName<'_>],
    ) -> Result<(), AllocError>
        ensures { OnOk result (self.new
            ≡ learnt_of self.old reply.now expected.now (map hole_view holes.now)) }
    {
        for hole in holes {
            self.bind(hole.name, matched_by(reply, expected, hole.place))?;
        }
        Ok(())
    }
}
