ghost use Rattle.std.specs.Prelude.{◌≡◌};
ghost use Rattle.module_check.specs.Checking.{Checked, Means};

use crate::reader::Reader;
use crate::tables::Tables;
use language::Program;
use values::{Refusal, Types};

// Reads bytes as a module. Where it passes, the holder has the module's tables; where it is refused, the holder stays
// as it was.
pub fn check(program: &mut Program, bytes: &[u8]) -> Result<(), Refusal>
    ensures checked { Checked bytes.now program.old program.new result }
    ensures means { Means bytes.now program.new result }
{
    if bytes.len() > 16384 {
        return Err(Refusal::Oversize);
    }
    let heap = program.heap;
    let mut tables = Tables {
        types: Types::new(heap),
        functions: Vec::new(heap),
    };
    let mut reader = Reader {
        at: 0,
        nodes: Vec::new(heap),
    };
    reader.module(bytes, &mut tables)?;
    let Tables { types, functions } = tables;
    let Reader { at: _, nodes } = reader;
    *program = Program {
        heap,
        types,
        functions,
        nodes,
    };
    Ok(())
}
