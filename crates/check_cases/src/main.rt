// Checks the module that each line of the input has in hexadecimal, and prints what the check says.
// `stdin` and `stdout` are written by tools/check_cases.py, which knows the rules and not this code.
#![tactic(auto)]

use language::Program;
use module_check::check;
use value_text::parse_bytes;

fn one_line(rt: &HostRuntime, line: &str) -> anyhow::Result<()> {
    let heap = rt.alloc();
    let bytes = match parse_bytes(heap, line) {
        Ok(bytes) => bytes,
        Err(problem) => {
            println!(rt; "{problem}")?;
            return Ok(());
        }
    };
    let mut program = Program::new(heap);
    match check(&mut program, bytes.as_slice()) {
        Ok(()) => println!(rt;
            "ok, rows {}, functions {}",
            program.row_count(),
            program.function_count()
        )?,
        Err(refusal) => println!(rt; "{refusal}")?,
    }
    Ok(())
}

fn main(rt: HostRuntime) -> anyhow::Result<()> {
    for line in rt.lines(rt.alloc()) {
        one_line(&rt, line?.as_str())?;
    }
    Ok(())
}
