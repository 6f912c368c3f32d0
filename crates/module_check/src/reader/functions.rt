ghost use Rattle.std.specs.Prelude.{◌≡◌, ◌+◌, ◌<◌, ◌≤◌, [], length};
ghost use Rattle.values.specs.Tables.{rows_of};
ghost use Rattle.verdict.specs.Bodies.{few};
ghost use Rattle.verdict.specs.Modules.{function_at, functions_at, module_at};
ghost use Rattle.module_check.specs.Views.{context_of, counts_of};
ghost use Rattle.module_check.specs.Reading.{FunctionRead, FunctionsRead, ModuleRead};

use crate::parent::Parent;
use crate::reader::Reader;
use crate::scene::Scene;
use crate::scope::Scope;
use crate::tables::Tables;
use language::Function;
use values::Refusal;

// Whether a number is one to eight.
fn is_few(count: u8) -> bool
    ensures { result ≡ few count }
{
    (1..=8).contains(&count)
}

impl Reader {
    // The next function.
    fn function(&mut self, bytes: &[u8], tables: &Tables) -> Result<Function, Refusal>
        ensures reads { FunctionRead (counts_of tables.now) (function_at (context_of tables.now) bytes.now self.old.at) self.old.nodes.items self.new.nodes.items self.new.at result }
    {
        let start = self.at;
        let first = self.nodes.len();
        if self.first(bytes)? != 0x20 {
            return Err(Refusal::Strange(start));
        }
        let [parameters, results] = self.body::<2>(bytes)?;
        if !is_few(parameters) || !is_few(results) {
            return Err(Refusal::Strange(start));
        }
        let parameters = self.uses(bytes, parameters, tables.types.len())?;
        let results = self.uses(bytes, results, tables.types.len())?;
        let Some(scope) = Scope::empty().with_all(parameters) else {
            unreachable()
        };
        let scene = Scene {
            bytes,
            tables,
            scope: &scope,
            room: 100,
        };
        self.asked(&Parent { scene, start }, results)?;
        Ok(Function {
            parameters,
            results,
            first,
        })
    }

    // So many functions, the first of a module.
    fn functions(&mut self, bytes: &[u8], tables: &mut Tables, count: u8) -> Result<(), Refusal>
        requires { (self.old.nodes.items ≡ []) × (tables.old.functions.items ≡ []) }
        ensures types { tables.new.types ≡ tables.old.types }
        ensures reads { FunctionsRead (functions_at count (rows_of tables.old.types) bytes.now [] self.old.at) tables.new.functions.items self.new.nodes.items self.new.at result }
    {
        for _ in 0..count {
            let function = self.function(bytes, tables)?;
            tables.functions.push(function)?;
        }
        Ok(())
    }

    // A module, and nothing behind it.
    pub(crate) fn module(&mut self, bytes: &[u8], tables: &mut Tables) -> Result<(), Refusal>
        requires { (self.old.at ≡ 0) × ((self.old.nodes.items ≡ []) × ((rows_of tables.old.types ≡ []) × (tables.old.functions.items ≡ []))) }
        ensures { ModuleRead (module_at bytes.now) (rows_of tables.new.types) tables.new.functions.items self.new.nodes.items result }
    {
        if self.first(bytes)? != 0x01 {
            return Err(Refusal::Strange(0));
        }
        let [rows, functions] = self.body::<2>(bytes)?;
        if rows > 60 || !(1..=60).contains(&functions) {
            return Err(Refusal::Strange(0));
        }
        self.rows(bytes, tables, rows)?;
        self.functions(bytes, tables, functions)?;
        if self.at != bytes.len() {
            return Err(Refusal::Cut(self.at));
        }
        Ok(())
    }
}
