ghost use Rattle.std.specs.Prelude.{◌≡◌, ◌≤◌, length};

// The type numbers of the 1 to 8 members of a record, or constituents of a union. An array with its count, since rows are
// copied and take no memory; the kit's array vector is not Copy.
#[derive(Clone, Copy)]
pub struct Members {
    numbers: [u8; 8],
    count: u8,
    ghost counted: { (1 ≤ count) × (count ≤ 8) × (length numbers ≡ 8) },
}

pub mod uses;
