// Byte strings as hexadecimal text: two digits to a byte, '0' to '9' and 'a' to 'f'.
#![tactic(auto)]

ghost use Rattle.std.specs.Prelude.{◌≡◌, ℕ, ◌<◌, List, [], ◌∷◌, IfOk, string_bytes, MatchOption, ◌≢◌};
ghost use Rattle.hexadecimal.specs.Digits.{hex_digit, hex_text, ByteString};

use std::alloc::{AllocError, Global};

// The digit that a character stands for, if it stands for one.
fn value(digit: char) -> Option<u8>
    ensures { MatchOption result
        ((d : ℕ) → d < 16 → hex_digit d ≢ digit)
        (λ d. (d < 16) × (hex_digit d ≡ digit)) }
{
    // std's `to_digit` reads upper-case digits too.
    match digit {
        '0'..='9' => Some(digit as u8 - b'0'),
        'a'..='f' => Some(digit as u8 - b'a' + 10),
        _ => None,
    }
}

// The character of a digit.
fn digit(value: u8) -> char
    requires { value < 16 }
    ensures { result ≡ hex_digit value }
{
    char::from_digit(u32::from(value), 16).unwrap()
}

/// The text of a byte string.
pub fn text(heap: Global, bytes: &[u8]) -> Result<String, AllocError>
    ensures { IfOk result (λ t. string_bytes t ≡ hex_text bytes.now) }
{
    let mut text = String::new(heap);
    for byte in bytes {
        text.push(digit(byte / 16))?;
        text.push(digit(byte % 16))?;
    }
    Ok(text)
}

// The byte that two characters write, if they write one.
fn byte(pair: &[u8; 2]) -> Option<u8>
    ensures { MatchOption result
        ((b : ℕ) → b < 256 → hex_text (b ∷ []) ≢ pair.now)
        (λ b. hex_text (b ∷ []) ≡ pair.now) }
{
    let [high, low] = *pair;
    Some(16 * value(char::from(high))? + value(char::from(low))?)
}

/// The byte string of a text, if it is the text of one.
pub fn read(heap: Global, text: &[u8]) -> Result<Option<Vec<u8>>, AllocError>
    ensures { IfOk result (λ found. MatchOption found
        ((bytes : List ℕ) → ByteString bytes → hex_text bytes ≢ text.now)
        (λ bytes. ByteString bytes.items × (hex_text bytes.items ≡ text.now))) }
{
    let (pairs, rest) = text.as_chunks::<2>();
    if !rest.is_empty() {
        return Ok(None);
    }
    let mut bytes = Vec::new(heap);
    for pair in pairs {
        let Some(byte) = byte(pair) else {
            return Ok(None);
        };
        bytes.push(byte)?;
    }
    Ok(Some(bytes))
}

#[cfg(test)]
mod tests {
    use super::{read, text};
    use std::test::Fail;

    #[test]
    fn hexadecimal(rt: HostRuntime) -> Result<(), Fail> {
        let heap = rt.alloc();
        assert_eq!(rt; text(heap, &[0x00, 0x9a, 0xf0])?.as_str(), "009af0");
        let bytes = read(heap, b"009af0")?.ok_or("unreadable")?;
        assert_eq!(rt; bytes.as_slice(), [0x00, 0x9a, 0xf0].as_slice());
        for unreadable in ["0", "0A", "g0", "0`", ":0"] {
            assert!(rt; read(heap, unreadable.as_bytes())?.is_none());
        }
        Ok(())
    }
}
