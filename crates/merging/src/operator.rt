ghost use Rattle.std.specs.Prelude.{◌≡◌, ℕ, ◌+◌, ◌≤◌};
ghost use Rattle.merging.specs.Operators.{Definition, Laws, Sized, most};

// A merging operator. Its laws are owed, and its answers are fixed, for tallies of at most
// 32,768 parts together.
pub trait Operator {
    type Part;

    type Tally;

    type Closed;

    ghost is: { Definition Self.Part Self.Tally Self.Closed };

    // The tally of no parts.
    fn start() -> Self::Tally
        ensures { result ≡ is.start };

    // The tally of one part.
    fn tally(part: Self::Part) -> Self::Tally
        ensures { result ≡ is.tally part };

    // The tally of the parts of both.
    fn join(a: Self::Tally, b: Self::Tally) -> Self::Tally
        ensures { (m n : ℕ) → Sized is m a → Sized is n b → m + n ≤ most → result ≡ is.join a b };

    // What a merge answers with.
    fn close(tally: Self::Tally) -> Self::Closed
        ensures { (n : ℕ) → Sized is n tally → n ≤ most → result ≡ is.close tally };

    ghost lawful: { Laws is };
}
