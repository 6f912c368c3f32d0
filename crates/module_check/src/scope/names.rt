ghost use Rattle.std.specs.Prelude.{◌≡◌, ◌+◌, ◌<◌, ◌≤◌, ◌↔◌, [], ◌∷◌, ◌++◌, length, IsTrue, MatchOption};
ghost use Rattle.std.specs.List.{slice_get};
ghost use Rattle.values.specs.Rows.{used};
ghost use Rattle.module_check.specs.Views.{names};

use crate::scope::Scope;
use values::Members;

impl Scope {
    // No names.
    pub(crate) fn empty() -> Scope
        ensures { names result ≡ [] }
    {
        Scope {
            types: [0; 96],
            count: 0,
        }
    }

    // The type of a name.
    pub(crate) fn find(&self, name: u8) -> Option<u8>
        ensures { result ≡ slice_get (names self.now) name }
    {
        self.types[..self.count].get(name as usize).copied()
    }

    // Whether there is no room for one more name.
    pub(crate) fn is_full(&self) -> bool
        ensures { IsTrue result ↔ (96 ≤ length (names self.now)) }
    {
        self.count >= 96
    }

    // The scope with one more name. That there is room stands here and at its two callers: a type of scopes with room would be
    // made by the same test, and unmade by each name.
    pub(crate) fn with(&self, name: u8) -> Scope
        requires { length (names self.now) < 96 }
        ensures { names result ≡ names self.now ++ name ∷ [] }
    {
        let mut types = self.types;
        types[self.count] = name;
        Scope {
            types,
            count: self.count + 1,
        }
    }

    // The scope with more names, if there is room for them.
    pub(crate) fn with_all(&self, more: Members) -> Option<Scope>
        ensures { MatchOption result (96 < length (names self.now) + length (used more)) (λ s. (length (names self.now) + length (used more) ≤ 96) × (names s ≡ names self.now ++ used more)) }
    {
        let count = self.count + more.as_slice().len();
        if count > 96 {
            return None;
        }
        let mut types = self.types;
        types[self.count..count].copy_from_slice(more.as_slice());
        Some(Scope { types, count })
    }
}
