ghost use Rattle.values.specs.Values.{encode, encodes};
ghost use Rattle.value_reader.specs.Scalars.{Laid};
ghost use Rattle.stack.specs.Undefs.{undefs};

use crate::bytes::has_room;
use numbers::Fault;
use value_reader::Scalar;

// Lays an integer, a boolean or an error value at the top, if it fits, and answers the new top.
pub fn lay<S: Scalar>(store: &mut [u8], top: usize, scalar: S) -> Option<usize>
    ensures { Laid store.old store.new top (encode (S.value scalar)) result }
{
    scalar.write(store, top)
}

// Lays so many undefs at the top, if all of them fit, and answers the new top.
pub fn lay_undefs(store: &mut [u8], top: usize, count: u8) -> Option<usize>
    ensures { Laid store.old store.new top (encodes (undefs count)) result }
{
    if !has_room(store, top, 2 * count as usize) {
        return None;
    }
    let mut end = top;
    for _ in 0..count {
        end = lay(store, end, Fault::Undef)?;
    }
    Some(end)
}
