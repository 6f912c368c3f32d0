ghost use Rattle.values.specs.Values.{Value, encode};
ghost use Rattle.value_reader.specs.Scalars.{Finds, Laid};

// What stands in bytes as a value of one record.
pub trait Scalar: Copy {
    // The value that it stands for.
    ghost value: { Self → Value };

    // What stands at `at`.
    fn read(bytes: &[u8], at: usize) -> Option<Self>
        ensures { Finds value bytes.now at result };

    // Lays its bytes at `at`, if they fit, and answers where they end.
    fn write(self, bytes: &mut [u8], at: usize) -> Option<usize>
        ensures { Laid bytes.old bytes.new at (encode (value self)) result };
}

mod mixed;
mod plain;
