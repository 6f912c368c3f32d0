ghost use Rattle.std.specs.Prelude.{◌≡◌, ◌+◌, ◌≤◌, length, nat_le};
ghost use Rattle.stack.specs.Laying.{Copied, Removed};

// Whether `size` more bytes fit from `top` on. `lay_bytes` tests the same in the crate below: a comparison, which
// a public function would be longer than.
pub(crate) fn has_room(store: &[u8], top: usize, size: usize) -> bool
    ensures { result ≡ nat_le (top + size) (length store.now) }
{
    top <= store.len() && size <= store.len() - top
}

// Lays a copy of the bytes from `from` to `end`, which stand below the top, if it fits, and answers the new top.
pub fn lay_copy(store: &mut [u8], top: usize, from: usize, end: usize) -> Option<usize>
    ensures { Copied store.old store.new top from end result }
{
    if from > end || end > top {
        return None;
    }
    let size = end - from;
    if !has_room(store, top, size) {
        return None;
    }
    store.copy_within(from..end, top);
    Some(top + size)
}

// Takes away the bytes from `base` to `from`: those up to the top move down over them. Answers the new top.
pub fn remove_beneath(store: &mut [u8], base: usize, from: usize, top: usize) -> usize
    ensures { Removed store.old store.new base from top result }
{
    if base > from || from > top || top > store.len() {
        return top;
    }
    store.copy_within(from..top, base);
    base + (top - from)
}
