//! A set of used places: one bit for each place, and one bit for each full word of these bits. The least free place is
//! found in two steps, independent of the number of used places.
ghost use Rattle.std.specs.Prelude.{◌≡◌, ◌+◌, ◌^◌, ◌<◌, ℕ};
ghost use Rattle.cap_space.specs.PlaceBitmap.{mark_at, AreSummed, IsMarked};

/// The number of bits of a word.
const BITS: usize = 64;

/// A set of used places among 4096, one bit for each.
#[derive(Drop)]
pub(crate) struct PlaceBitmap {
    /// Bit `b` of word `w` is 1 if place `64 w + b` is in use.
    words: [u64; BITS],
    /// Bit `w` is 1 if all places of word `w` are in use.
    full: u64,
    ghost summed: { AreSummed words full },
}

impl PlaceBitmap {
    /// Creates a set in which all places are free.
    pub(crate) fn all_free() -> PlaceBitmap
        ensures { (place : ℕ) → mark_at result.words place ≡ 0 }
    {
        PlaceBitmap {
            words: [0; BITS],
            full: 0,
        }
    }

    /// Returns the least free place. At least one place is free.
    pub(crate) fn least_free(&self) -> usize
        requires room { self.now.full + 1 < 2 ^ 64 }
        ensures within { result < 4096 }
        ensures free { mark_at self.now.words result ≡ 0 }
        ensures first { (place : ℕ) → place < result → mark_at self.now.words place ≡ 1 }
    {
        let word = self.full.trailing_ones() as usize;
        word * BITS + self.words[word].trailing_ones() as usize
    }

    /// Marks a free place as used.
    pub(crate) fn take(&mut self, place: usize)
        requires within { place < 4096 }
        requires free { mark_at self.old.words place ≡ 0 }
        ensures taken { IsMarked self.old.words self.new.words place 1 }
    {
        let word = place / BITS;
        let marked = self.words[word] | 1 << (place % BITS);
        self.words[word] = marked;
        if marked == u64::MAX {
            self.full |= 1 << word;
        }
    }

    /// Marks a place as free.
    pub(crate) fn free(&mut self, place: usize)
        requires within { place < 4096 }
        ensures freed { IsMarked self.old.words self.new.words place 0 }
    {
        let word = place / BITS;
        self.words[word] &= !(1 << (place % BITS));
        self.full &= !(1 << word);
    }
}
