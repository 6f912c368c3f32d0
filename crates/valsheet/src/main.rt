// The command line of the VAL worksheet.
#![tactic(auto)]

mod columns;
mod value;

use anyhow::bail;
use operators::Standard;
use std::env;

const USAGE: &str = "usage: valsheet columns FILE.csv | valsheet value ROWS TYPE BYTES";

fn run(rt: &HostRuntime) -> anyhow::Result<()> {
    let mut words = env::args(rt)?;
    let _program = words.next();
    let (Some(command), Some(first)) = (words.next(), words.next()) else {
        bail!(USAGE);
    };
    match command.as_str() {
        "columns" => columns::report::<Standard>(rt, first.as_str()),
        "value" => {
            let (Some(number), Some(bytes)) = (words.next(), words.next()) else {
                bail!(USAGE);
            };
            value::show(rt, first.as_str(), number.as_str(), bytes.as_str())
        }
        _ => bail!(USAGE),
    }
}

fn main(rt: HostRuntime) -> anyhow::Result<()> {
    run(&rt)
}
