ghost use Rattle.std.specs.Prelude.{◌≡◌, ℕ, ◌+◌, ◌≤◌, length, take, drop};
ghost use Rattle.value_reader.specs.Scalars.{Laid};

// The N bytes from `at` on.
pub(crate) fn bytes_at<const N: usize>(bytes: &[u8], at: usize) -> [u8; N]
    requires { at + N ≤ length bytes.now }
    ensures { result ≡ take N (drop at bytes.now) }
{
    bytes[at..at + N].try_into().unwrap()
}

// Lays bytes over others from `at` on, if they fit, and answers where they end.
pub fn lay_bytes(store: &mut [u8], at: usize, bytes: &[u8]) -> Option<usize>
    ensures { Laid store.old store.new at bytes.now result }
{
    if at > store.len() || store.len() - at < bytes.len() {
        return None;
    }
    let end = at + bytes.len();
    store[at..end].copy_from_slice(bytes);
    Some(end)
}
