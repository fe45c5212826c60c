//! Theorems of start lists: what is true of each text that is one, and which fault a boot reports.
ghost use Rattle.list_parser.specs.ListTheorems.{FaultsAreOfLacks, FaultsNameTheFirst, InitsGiveTheirOwn, ListsAreListed};

/// States that all lists together have at most 32 entries and nest at most three inits deep. A path and a label are the
/// joined names of the inits above and the entry's own. The names of one list differ, and each init is directly before its
/// own entries.
pub fn lists_are_listed()
    ensures { ListsAreListed }
{}

/// States that a list that is read boots exactly if the rest of each init's account covers its entries. If it does not boot,
/// the fault names the first entry that is not covered.
pub fn quota_faults_are_of_lacks()
    ensures exactly { FaultsAreOfLacks }
    ensures first { FaultsNameTheFirst }
{}

/// States that each init of a booted list keeps and gives exactly what it has. What it gives are the accounts and reserves
/// of its own list's entries. The machine's init has the machine, and each other init its own budget.
pub fn inits_give_their_own()
    ensures { InitsGiveTheirOwn }
{}
