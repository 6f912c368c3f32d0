ghost use Rattle.values.specs.Encodings.{Encodings};

// Says what holds of the bytes of values: they are a prefix code, as long as the size says, and two at least.
pub fn encodings_stand()
    ensures { Encodings }
{}
