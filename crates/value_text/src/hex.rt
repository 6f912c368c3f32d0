ghost use Rattle.std.specs.Prelude.{◌≡◌, ◌<◌, Some, IfSome, MatchResult};
ghost use Rattle.value_text.specs.Hex.{digit_value, byte_of, hex, hex_text, Refuses};

use crate::problem::Problem;
use std::alloc::Global;

// Two digits a byte, without blanks; `-` stands for no bytes.
pub fn parse_bytes(heap: Global, text: &str) -> Result<Vec<u8>, Problem>
    ensures { MatchResult result (λ v. hex_text text.now ≡ Some v.items) (λ e. Refuses e (hex_text text.now)) }
{
    if text == "-" {
        Ok(Vec::new(heap))
    } else {
        digits_to_bytes(heap, text.as_bytes())
    }
}

fn digits_to_bytes(heap: Global, digits: &[u8]) -> Result<Vec<u8>, Problem>
    ensures { MatchResult result (λ v. hex digits.now ≡ Some v.items) (λ e. Refuses e (hex digits.now)) }
{
    let (pairs, rest) = digits.as_chunks::<2>();
    if !rest.is_empty() {
        return Err(Problem::OddDigits);
    }
    let mut bytes = Vec::new(heap);
    for &[high, low] in pairs {
        let Some(byte) = byte_of(high, low) else {
            return Err(Problem::NoHexDigit {
                place: bytes.len() + 1,
            });
        };
        bytes.push(byte)?;
    }
    Ok(bytes)
}

// The byte that two digits write, the high one first.
fn byte_of(high: u8, low: u8) -> Option<u8>
    ensures { result ≡ byte_of (digit_value high) (digit_value low) }
{
    Some(digit(high)? * 16 + digit(low)?)
}

fn digit(byte: u8) -> Option<u8>
    ensures value { result ≡ digit_value byte }
    ensures below { IfSome result (λ digit. digit < 16) }
{
    match byte {
        b'0'..=b'9' => Some(byte - b'0'),
        b'a'..=b'f' => Some(byte - b'a' + 10),
        b'A'..=b'F' => Some(byte - b'A' + 10),
        _ => None,
    }
}
