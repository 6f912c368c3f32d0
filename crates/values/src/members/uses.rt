ghost use Rattle.std.specs.Prelude.{◌≡◌, ℕ, ◌<◌, ◌≤◌, ◌⊎◌, ◌↔◌, IsTrue, length, nat_eq, MatchOption};
ghost use Rattle.std.specs.Ordering.{on};
ghost use Rattle.std.specs.Cmp.Rules.{comparing};
ghost use Rattle.std.specs.Cmp.Lexicographic.{pointwise};
ghost use Rattle.std.specs.List.{slice_get};
ghost use Rattle.std.proofs.Common.{rules};
ghost use Rattle.values.specs.Rows.{used, all_below};

use crate::members::Members;

impl Members {
    // The first `count` of the numbers; none unless these are 1 to 8. The others are kept as they are. Eight places and a count,
    // since who reads numbers one by one, without taking memory, has them so.
    pub fn new(numbers: [u8; 8], count: u8) -> Option<Members>
        ensures { MatchOption result ((count ≡ 0) ⊎ (8 < count)) (λ m. (m.numbers ≡ numbers) × (m.count ≡ count)) }
    {
        if count == 0 {
            return None;
        }
        if count > 8 {
            return None;
        }
        Some(Members { numbers, count })
    }

    // The type numbers.
    pub fn as_slice(&self) -> &[u8]
        ensures { result.now ≡ used self.now }
    {
        &self.numbers[..self.count as usize]
    }

    // How many there are.
    pub fn count(self) -> u8
        ensures { result ≡ length (used self) }
    {
        self.count
    }

    // The type number at a place, counted from 0.
    pub fn get(self, index: u8) -> Option<u8>
        ensures { result ≡ slice_get (used self) index }
    {
        self.as_slice().get(index as usize).copied()
    }

    // Whether each is below a limit.
    pub fn all_below(self, limit: u8) -> bool
        ensures { result ≡ all_below limit (used self) }
    {
        self.as_slice().iter().all(|&number| number < limit)
    }
}

// By hand, since numbers behind the count do not matter.
impl PartialEq for Members {
    ghost eq = { on used (pointwise nat_eq) };

    ghost laws = { Prim.search (comparing, rules) };

    fn eq(&self, other: &Members) -> bool {
        self.as_slice() == other.as_slice()
    }
}
