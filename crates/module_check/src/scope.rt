ghost use Rattle.std.specs.Prelude.{◌≡◌, ◌≤◌, length};

// The types of the names in scope, 96 at most: by a rule of the project an array with a count, not on the heap.
#[derive(Clone, Copy)]
pub struct Scope {
    pub types: [u8; 96],
    pub count: usize,
    ghost ok: { (count ≤ 96) × (length types ≡ 96) },
}

pub mod names;
