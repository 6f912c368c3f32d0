ghost use Rattle.verdict.specs.Exactness.{AcceptsExactly};

// Says what is accepted: exactly the bytes of well-typed modules, 16384 at most.
pub fn exactness_stands()
    ensures { AcceptsExactly }
{}
