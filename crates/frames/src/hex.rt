// Hexadecimal digits.
ghost use Rattle.std.specs.Prelude.{◌≡◌, ◌+◌, ◌*◌, ◌%◌, ◌<◌, ◌≤◌, [], ◌∷◌, ◌++◌, cond, length, take, drop, None, Some, Ok, IfSome, nat_lt};
ghost use Rattle.std.specs.List.{prefix_len};
ghost use Rattle.terms.specs.Refusals.{refuse, ok_as};
ghost use Rattle.frames.specs.declared.fault.LineFault.TheVariants.{NotHexadecimal};
ghost use Rattle.frames.specs.Hex.{hex_digit_of, is_hex_digit, hex_value_of, hex_of, bytes_in, Bytes};
ghost use Rattle.frames.specs.Writing.{over};

use super::fault::LineFault;
use super::kind::LONGEST_FRAME;

// Reads the bytes that the digits of a line of even length stand for, as many as the longest frame has, into the start of a
// row, and answers that start; or finds the first character that is no digit.
pub fn decode<'a>(line: &[u8], row: &'a mut [u8; LONGEST_FRAME]) -> Result<&'a [u8], LineFault>
    requires { length line.now % 2 ≡ 0 }
    ensures { ok_as (λ bytes. bytes.now) result ≡ refuse (nat_lt (prefix_len is_hex_digit line.now) (length line.now)) (NotHexadecimal (prefix_len is_hex_digit line.now)) (Ok (take LONGEST_FRAME (bytes_in line.now))) }
{
    let (pairs, _) = line.as_chunks::<2>();
    for (i, [high, low]) in pairs.iter().enumerate() {
        let Some(high) = value_of(*high) else {
            return Err(LineFault::NotHexadecimal(2 * i));
        };
        let Some(low) = value_of(*low) else {
            return Err(LineFault::NotHexadecimal(2 * i + 1));
        };
        // Where the row is full the byte is of no frame, and is left out.
        if i < LONGEST_FRAME {
            row[i] = 16 * high + low;
        }
    }
    Ok(&row[..pairs.len().min(LONGEST_FRAME)])
}

// Writes the digits of the bytes from a place on, and answers the place after them.
pub fn put(out: &mut [u8], at: usize, bytes: &[u8]) -> usize
    requires { at + 2 * length bytes.now ≤ length out.old }
    ensures value { result ≡ at + 2 * length bytes.now }
    ensures after { out.new ≡ take at out.old ++ over (hex_of bytes.now) (drop at out.old) }
    ensures fit { Bytes bytes.now }
{
    for (i, byte) in bytes.iter().enumerate() {
        let [high, low] = hex_pair(*byte);
        out[at + 2 * i] = high;
        out[at + 2 * i + 1] = low;
    }
    at + 2 * bytes.len()
}

// The two digits of a byte, the high one first. By hand: `{:02X}` writes text, and a line is bytes.
pub fn hex_pair(byte: u8) -> [u8; 2]
    ensures { result ≡ hex_of (byte ∷ []) }
{
    [digit_of(byte / 16), digit_of(byte % 16)]
}

// The value of a digit, if the character is one. Which digit it is decides no branch: in a table that would be guessed wrong
// at every third.
fn value_of(character: u8) -> Option<u8>
    ensures value { result ≡ cond (is_hex_digit character) (Some (hex_value_of character)) None }
    ensures bound { IfSome result (λ value. value < 16) }
{
    if !is_digit(character) {
        return None;
    }
    // The character from which the digits of this kind count.
    let zero = if character <= b'9' { b'0' } else { b'A' - 10 };
    Some(character - zero)
}

// By `|` and not `||`, so that both tests are made and none is jumped over.
fn is_digit(character: u8) -> bool
    ensures { result ≡ is_hex_digit character }
{
    matches!(character, b'0'..=b'9') | matches!(character, b'A'..=b'F')
}

fn digit_of(value: u8) -> u8
    requires { value < 16 }
    ensures { result ≡ hex_digit_of value }
{
    if value < 10 {
        b'0' + value
    } else {
        b'A' + (value - 10)
    }
}
