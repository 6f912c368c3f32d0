use language::Function;
use values::Types;

// What has been read before a function: the rows, and the functions before it.
#[derive(Drop)]
pub struct Tables {
    pub types: Types,
    pub functions: Vec<Function>,
}
