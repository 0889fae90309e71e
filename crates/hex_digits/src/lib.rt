//! Hexadecimal digits of packet lines: read in either case, written in lower case.
#![tactic(auto)]

ghost use Rattle.std.specs.Prelude.{◌≡◌, ◌<◌, IfSome, Some};
ghost use Rattle.hex_digits.specs.Digits.{digit, joined, hex_digit_of, hex, length_field};

/// The byte that two hexadecimal digits write, in either case; none where one is no digit.
pub fn hex_byte(high: u8, low: u8) -> Option<u8>
    ensures { result ≡ joined 16 (digit high) (digit low) }
{
    Some(16 * hex_digit(high)? + hex_digit(low)?)
}

/// The four lower-case hexadecimal digits of `value`, which are read back as `value`.
pub fn u16_to_hex(value: u16) -> [u8; 4]
    ensures is { result ≡ hex value }
    ensures read_back { length_field result ≡ Some value }
{
    let [high, low] = value.to_be_bytes();
    [
        hex_char(high / 16),
        hex_char(high % 16),
        hex_char(low / 16),
        hex_char(low % 16),
    ]
}

fn hex_char(d: u8) -> u8
    requires { d < 16 }
    ensures { result ≡ hex_digit_of d }
{
    match d {
        0..=9 => b'0' + d,
        _ => b'a' + (d - 10),
    }
}

fn hex_digit(b: u8) -> Option<u8>
    ensures is { result ≡ digit b }
    ensures below { IfSome result (λ d. d < 16) }
{
    match b {
        b'0'..=b'9' => Some(b - b'0'),
        b'a'..=b'f' => Some(b - b'a' + 10),
        b'A'..=b'F' => Some(b - b'A' + 10),
        _ => None,
    }
}
