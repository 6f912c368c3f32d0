ghost use Rattle.values.specs.Tables.{rows_of};
ghost use Rattle.language.specs.Tables.{Held};

use crate::function::Function;
use crate::node::Node;
use std::alloc::Global;
use values::Types;

// The holder of a checked module: its types, its functions, and the records of their bodies, one function's behind the
// other's. A new one has no rows and no functions; any other has the tables of a well-typed module. Records stand in the order
// of the bytes with their spans, and not in boxes: the definitions speak of that list, and a module takes one stretch of
// memory for it.
#[derive(Drop)]
pub struct Program {
    pub heap: Global,
    pub types: Types,
    pub functions: Vec<Function>,
    pub nodes: Vec<Node>,
    ghost lawful: { ∥ Held (rows_of types) functions.items nodes.items ∥₁ },
}

pub mod holder;
