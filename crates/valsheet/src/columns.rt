use anyhow::anyhow;
use merging::{MOST, Operator, Operators};
use numbers::Integer;
use readings::{Column, read_table};
use std::{fs, io};
use summaries::{merge_in_three_orders, repeated_plus, repeated_plus_backwards};

// Reads a table of readings, and prints what each column comes to.
pub fn report<S: Operators>(rt: &HostRuntime, path: &str) -> anyhow::Result<()> {
    let heap = rt.alloc();
    let text = fs::read_to_string(rt, path)?;
    let columns = read_table(heap, text.as_str()).map_err(|misread| anyhow!("{path}: {misread}"))?;
    println!(rt;
        "{path}: {} columns, in tenths of a micrometre",
        columns.len()
    )?;
    for column in &columns {
        print_column::<S>(rt, column)?;
    }
    Ok(())
}

fn print_column<S: Operators>(rt: &HostRuntime, column: &Column) -> io::Result<()> {
    let readings = column.readings.as_slice();
    println!(rt; "")?;
    println!(rt; "{}: {} readings", column.name, readings.len())?;
    print_merge::<S::Plus>(rt, "plus", readings)?;
    print_merge::<S::Max>(rt, "max", readings)?;
    print_merge::<S::Min>(rt, "min", readings)?;
    let front = repeated_plus(readings);
    let back = repeated_plus_backwards(readings);
    println!(rt; "  repeated + gives {front} from the front and {back} from the back")
}

// One line for one operator: its value in file order, backwards and by halves.
fn print_merge<O: Operator<Part = Integer, Closed = Integer>>(
    rt: &HostRuntime,
    name: &str,
    readings: &[Integer],
) -> io::Result<()> {
    match merge_in_three_orders::<O>(readings) {
        Ok(orders) => {
            let verdict = if orders.agree() {
                "they agree"
            } else {
                "THEY DIFFER"
            };
            println!(rt;
                "  {name}: {} in file order, {} backwards, {} by halves: {verdict}",
                orders.front, orders.back, orders.halves
            )
        }
        Err(_) => println!(rt; "  {name}: more than {MOST} readings, too many for one merge"),
    }
}
