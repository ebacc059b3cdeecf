// Bytes written as hexadecimal.
ghost use Rattle.std.specs.Prelude.{◌≡◌, ◌<◌, IfSome, IfOk};
ghost use Rattle.sheets.specs.Hex.{digit_value, byte_value, hex_bytes, items_in};

use std::alloc::{AllocError, Global};

// The value of a hexadecimal digit.
fn digit(byte: u8) -> Option<u8>
    ensures value { result ≡ digit_value byte }
    ensures small { IfSome result (λ d. d < 16) }
{
    match byte {
        b'0'..=b'9' => Some(byte - b'0'),
        b'A'..=b'F' => Some(byte - b'A' + 10),
        b'a'..=b'f' => Some(byte - b'a' + 10),
        _ => None,
    }
}

// The byte of two digits.
fn two_digits(high: u8, low: u8) -> Option<u8>
    ensures { result ≡ byte_value high low }
{
    let high = digit(high)?;
    let low = digit(low)?;
    Some(16 * high + low)
}

// The bytes that some text stands for, two digits each; nothing if it is no hexadecimal.
pub(crate) fn decode(heap: Global, text: &[u8]) -> Result<Option<Vec<u8>>, AllocError>
    ensures { IfOk result (λ o. items_in o ≡ hex_bytes text.now) }
{
    let mut bytes = Vec::new(heap);
    // first: nothing is decoded of a line that has half a byte
    if text.len() % 2 == 1 {
        return Ok(None);
    }
    let mut rest = text;
    while let [high, low, more @ ..] = rest {
        // leaves with an answer, not an error
        let Some(byte) = two_digits(*high, *low) else {
            return Ok(None);
        };
        bytes.push(byte)?;
        rest = more;
    }
    Ok(Some(bytes))
}
