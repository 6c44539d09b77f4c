// Hexadecimal: one digit, and a field of digits, as wide as the slice that is lent.
//
// Digits are 0–9 A–F, upper case both ways, the most significant first. Contracts cite specs/Hex.antt and specs/Field.antt.
// Reading a field is inlined, so that it is compiled for the width that each caller lends.
ghost use Rattle.std.specs.Prelude.{◌≡◌, ◌<◌, length};
ghost use Rattle.frame.specs.Hex.{digit_in, byte_of, digits_of};
ghost use Rattle.frame.specs.Field.{field_of};

// The value of a digit; none for any other byte.
#[tactic(auto, using(crate::proofs::Laws::Hex::by_range))]
fn digit_of(byte: u8) -> Option<u32>
    ensures { result ≡ digit_in byte }
{
    match byte {
        b'0'..=b'9' => Some((byte - b'0') as u32),
        b'A'..=b'F' => Some((byte - b'A' + 10) as u32),
        _ => None,
    }
}

// The digit of a value.
#[tactic(auto, unfolding(crate::specs::Hex::byte_of))]
fn byte_of(digit: u8) -> u8
    requires { digit < 16 }
    ensures { result ≡ byte_of digit }
{
    if digit < 10 { digit + 48 } else { digit + 55 }
}

// Reads a field, whatever its width: its number, or none if a byte is not a digit or the number does not fit in 32 bits.
#[tactic(auto, using(crate::proofs::Laws::Field::by_digit))]
#[inline(always)]
pub fn read_field(digits: &[u8]) -> Option<u32>
    ensures { result ≡ field_of digits.now }
{
    let mut number: u32 = 0;
    for &byte in digits {
        let digit = digit_of(byte)?;
        number = number.checked_mul(16)? + digit;
    }
    Some(number)
}

// Writes a number over the whole field: only its last digits if the field is short, leading zeros if it is long.
#[tactic(auto, using(crate::proofs::Laws::Hex::from_the_end))]
pub fn write_field(out: &mut [u8], number: u32)
    ensures { out.new ≡ digits_of (length out.old) number }
{
    let mut rest = number;
    for k in (0..out.len()).rev() {
        out[k] = byte_of((rest % 16) as u8);
        rest = rest / 16;
    }
}
