ghost use Rattle.value_reader.specs.Scalars.{Laid};
ghost use Rattle.stack.specs.Heads.{head_bytes, HeadsValues};

use numbers::Number;
use value_reader::{Kind, lay_bytes};

// What stands before the parts of a composed value.
#[derive(Clone, Copy, Debug, PartialEq, Eq)]
pub enum Head {
    // The low index, and the number of elements.
    Array { low: Number, count: u16 },
    // The number of members.
    Record { count: u8 },
    Union { tag: u8 },
}

// Lays the head of a composed value at the top, if it fits, and answers the new top.
pub fn lay_head(store: &mut [u8], top: usize, head: Head) -> Option<usize>
    ensures laid { Laid store.old store.new top (head_bytes head) result }
    ensures heads { HeadsValues head }
{
    match head {
        Head::Array { low, count } => {
            let [a, b, c, d] = low.get().to_be_bytes();
            let [e, f] = count.to_be_bytes();
            lay_bytes(store, top, &[Kind::Array.into(), a, b, c, d, e, f])
        }
        Head::Record { count } => lay_bytes(store, top, &[Kind::Record.into(), count]),
        Head::Union { tag } => lay_bytes(store, top, &[Kind::Union.into(), tag]),
    }
}
