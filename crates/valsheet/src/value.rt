use anyhow::anyhow;
use value_reader::read_whole;
use value_text::{parse_bytes, parse_types, show_value};
use values::Refusal;

// Reads bytes as a value of a type, and prints it as VAL writes it.
pub fn show(rt: &HostRuntime, rows: &str, number: &str, bytes: &str) -> anyhow::Result<()> {
    let heap = rt.alloc();
    let types = parse_types(heap, rows).map_err(|problem| anyhow!("{rows}: {problem}"))?;
    let bytes = parse_bytes(heap, bytes).map_err(|problem| anyhow!("the bytes: {problem}"))?;
    let number = number.parse::<u8>()?;
    let length = read_whole(&types, bytes.as_slice(), number).map_err(|refusal| anyhow!(
        "{refusal}: {}",
        explain(refusal)
    ))?;
    let text = show_value(heap, bytes.as_slice()).map_err(|problem| anyhow!("{problem}"))?;
    println!(rt; "{text} ({length} bytes of type {number})")?;
    Ok(())
}

// What a refusal of value bytes means.
fn explain(refusal: Refusal) -> &'static str {
    match refusal {
        Refusal::Cut(_) => "the bytes end inside a record, or go on after the value",
        Refusal::Strange(_) => "no such boolean, number or array bounds",
        Refusal::Undeclared(_) => "there is no such type",
        Refusal::Clash(_) => "the kind, error code, member count or tag is not the type's",
        _ => "the value was not read",
    }
}
