ghost use Rattle.std.specs.Prelude.{◌≡◌, [], length};
ghost use Rattle.values.specs.Tables.{rows_of, row_of};
ghost use Rattle.language.specs.Tables.{parameters_of, results_of};

use crate::function::Function;
use crate::program::Program;
use std::alloc::Global;
use values::{Members, Row, Types};

impl Program {
    // A holder without a module.
    pub fn new(heap: Global) -> Program
        ensures rows { rows_of result.types ≡ [] }
        ensures functions { result.functions.items ≡ [] }
        ensures nodes { result.nodes.items ≡ [] }
    {
        Program {
            heap,
            types: Types::new(heap),
            functions: Vec::new(heap),
            nodes: Vec::new(heap),
        }
    }

    // How many rows there are.
    pub fn row_count(&self) -> usize
        ensures { result ≡ length (rows_of self.now.types) }
    {
        self.types.len()
    }

    // The row of a type number, if there is one.
    pub fn row(&self, number: u8) -> Option<Row>
        ensures { result ≡ row_of (rows_of self.now.types) number }
    {
        self.types.row(number)
    }

    // How many functions there are.
    pub fn function_count(&self) -> usize
        ensures { result ≡ length self.now.functions.items }
    {
        self.functions.len()
    }

    // The types of a function's parameters, if there is such a function.
    pub fn parameters(&self, function: u8) -> Option<Members>
        ensures { result ≡ parameters_of self.now.functions.items function }
    {
        Some(self.functions.get(function as usize)?.parameters)
    }

    // The types of a function's results, if there is such a function. As `parameters`, but for the field: one line each.
    pub fn results(&self, function: u8) -> Option<Members>
        ensures { result ≡ results_of self.now.functions.items function }
    {
        Some(self.functions.get(function as usize)?.results)
    }
}
