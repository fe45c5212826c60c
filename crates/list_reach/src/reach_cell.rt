//! A cell of a table of reach: which labels of a script's requests are routed to a server.
use crate::client_reach::Reach;
use list_labels::LabelSet;

/// The reach from a script to a server: which labels of the script's requests for a service are routed to the server.
#[derive(Drop)]
pub struct ReachCell<'a> {
    /// The number of the script.
    pub client: usize,
    /// The service.
    pub service: &'a str,
    /// The number of a server that provides the service.
    pub server: usize,
    /// Whether all labels, some labels or no label is routed to the server.
    pub reach: Reach,
    /// The set of the labels that are routed to the server.
    pub labels: LabelSet,
}

impl ReachCell<'_> {
    ghost use Rattle.std.specs.Prelude.{MatchOption};
    ghost use Rattle.std.specs.Option.{option_copied};
    ghost use Rattle.own_model.specs.Listed.{Listed};
    ghost use Rattle.list_reach.specs.Reach.{IsShortest, NoneRouted};
    ghost use Rattle.list_reach.specs.Table.{IsTrue};

    /// Returns one of the shortest labels that are routed to the server, or none if no label is.
    #[tactic(auto, using(crate::proofs::ReachLemmas::empty_is_shortest))]
    pub fn witness(&self) -> Option<&[u8]>
        ensures { (list : Listed) → IsTrue list self.now → MatchOption (option_copied result)
            (NoneRouted list self.now.client self.now.service.now self.now.server)
            (IsShortest list self.now.client self.now.service.now self.now.server) }
    {
        match &self.reach {
            Reach::Always => Some(&[]),
            Reach::By(label) => Some(label.as_bytes()),
            Reach::Never => None,
        }
    }
}
