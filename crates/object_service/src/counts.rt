//! Counters of the objects of a session.
ghost use Rattle.std.specs.Prelude.{◌≡◌, ℕ, ◌==◌, List, [], ◌∷◌, ◌++◌, length, count_by};
ghost use Rattle.object_service.specs.Counts.{AreCounted, HasRoom, HasCounted};

use object_kinds::MOST_KINDS;

/// Counters of objects: of all, and of those of each kind by its number.
#[derive(Clone, Copy, Drop)]
pub(crate) struct ObjectCounts {
    /// The number of all objects.
    pub(crate) all: u64,
    /// The numbers of objects of each kind.
    pub(crate) each: [u64; MOST_KINDS],
}

impl ObjectCounts {
    /// Returns counters of no objects.
    pub(crate) fn new() -> ObjectCounts
        ensures { AreCounted result [] }
    {
        ObjectCounts {
            all: 0,
            each: [0; MOST_KINDS],
        }
    }

    /// Counts one more object of a kind.
    pub(crate) fn add(&mut self, number: usize)
        requires { HasRoom self.old number }
        ensures { (numbers : List ℕ) → AreCounted self.old numbers
            → AreCounted self.new (numbers ++ number ∷ []) }
    {
        self.all += 1;
        self.each[number] += 1;
    }

    /// Counts one object of a kind less.
    pub(crate) fn remove(&mut self, number: usize)
        requires { HasCounted self.old number }
        ensures { (before behind : List ℕ) → AreCounted self.old (before ++ number ∷ behind)
            → AreCounted self.new (before ++ behind) }
    {
        self.all -= 1;
        self.each[number] -= 1;
    }
}
