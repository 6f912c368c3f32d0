// Reads each line of the input as `ROWS TYPE BYTES`, and prints the value or its refusal.
// `stdin` and `stdout` are written by tools/value_cases.py, which knows the rules and not this code.
#![tactic(auto)]

use anyhow::anyhow;
use value_reader::{read_whole, skip_value};
use value_text::{parse_bytes, parse_types, show_value};
use values::Types;

fn judge(rt: &HostRuntime, types: &Types, number: u8, bytes: &[u8]) -> anyhow::Result<()> {
    match read_whole(types, bytes, number) {
        Ok(length) => {
            let text = show_value(rt.alloc(), bytes).map_err(|problem| anyhow!("{problem}"))?;
            let skipped = skip_value(bytes, 0).unwrap_or(0);
            println!(rt; "{text} ({length} bytes, {skipped} skipped)")?;
        }
        Err(refusal) => println!(rt; "{refusal}")?,
    }
    Ok(())
}

fn one_line(rt: &HostRuntime, line: &str) -> anyhow::Result<()> {
    let heap = rt.alloc();
    let mut words = line.split(' ');
    let (Some(rows), Some(number), Some(bytes)) = (words.next(), words.next(), words.next()) else {
        println!(rt; "no case")?;
        return Ok(());
    };
    let number = number.parse::<u8>()?;
    match (parse_types(heap, rows), parse_bytes(heap, bytes)) {
        (Ok(types), Ok(bytes)) => judge(rt, &types, number, bytes.as_slice()),
        (Err(problem), _) | (_, Err(problem)) => {
            println!(rt; "{problem}")?;
            Ok(())
        }
    }
}

fn main(rt: HostRuntime) -> anyhow::Result<()> {
    for line in rt.lines(rt.alloc()) {
        one_line(&rt, line?.as_str())?;
    }
    Ok(())
}
