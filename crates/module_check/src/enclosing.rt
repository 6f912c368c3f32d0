use values::Members;

// The types of the results and of the names of the loop whose end is read.
#[derive(Clone, Copy)]
pub struct Enclosing {
    pub results: Members,
    pub names: Members,
}
