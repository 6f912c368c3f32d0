use values::Members;

// A function: the types of its parameters and results, and the place of its body's first record.
#[derive(Clone, Copy)]
pub struct Function {
    pub parameters: Members,
    pub results: Members,
    pub first: usize,
}
