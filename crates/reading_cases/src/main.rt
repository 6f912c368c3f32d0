// Tables of readings, good and bad, and what the reader says of each.
#![tactic(auto)]

use readings::read_table;

const CASES: [&str; 14] = [
    "",
    "x\n",
    "x\n1\n",
    "x,y\n1,2\n-3,+4\n",
    "x , y\r\n 1 , miss \r\n,undef\r\n",
    "x,y\n2147483647,2147483648\n-2147483647,-2147483648",
    "x\n9223372036854775807\n-9223372036854775808\n",
    "x\n9223372036854775808\n",
    "x,y\n1,2\n3,four\n",
    "x,y\n1,2\n3,4,5\n",
    "x,y\n1,2\n3\n",
    "x\n1.5\n",
    "x\n--1\n",
    "a,b,c,d,e\nmiss_elt,pos_over,neg_over,unknown,zero_divide\n",
];

fn show(rt: &HostRuntime, text: &str) -> anyhow::Result<()> {
    let columns = match read_table(rt.alloc(), text) {
        Ok(columns) => columns,
        Err(misread) => {
            println!(rt; "{misread}")?;
            return Ok(());
        }
    };
    for column in &columns {
        print!(rt; "{}:", column.name)?;
        for reading in &column.readings {
            print!(rt; " {reading}")?;
        }
        print!(rt; ";")?;
    }
    println!(rt; "")?;
    Ok(())
}

fn main(rt: HostRuntime) -> anyhow::Result<()> {
    for text in CASES {
        show(&rt, text)?;
    }
    Ok(())
}
