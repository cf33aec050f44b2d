// Decimal numerals without leading zeros.
ghost use Rattle.std.specs.Prelude.{◌≡◌, ◌+◌, ◌≤◌, length, drop};
ghost use Rattle.transcript.specs.Grammar.{is_digit, led_ok, numeral_value, up_to_space};

pub const SPACE: u8 = b' ';

pub const ZERO: u8 = b'0';

const NINE: u8 = b'9';

fn is_digit(b: u8) -> bool
    ensures { result ≡ is_digit b }
{
    if b < ZERO {
        return false;
    }
    b <= NINE
}

// Not empty, and no zero before another byte.
fn is_led(s: &[u8]) -> bool
    ensures { result ≡ led_ok s.now }
{
    if s.len() == 0 {
        return false;
    }
    if s.len() == 1 {
        return true;
    }
    s[0] != ZERO
}

// The value of a numeral, or none where the bytes are no numeral that a word holds.
pub fn numeral(s: &[u8]) -> Option<u32>
    ensures { result ≡ numeral_value s.now }
{
    if !is_led(s) {
        return None;
    }
    let mut value: u32 = 0;
    for b in s {
        if !is_digit(*b) {
            return None;
        }
        let digit = u32::from(*b - ZERO);
        value = value.checked_mul(10)?.checked_add(digit)?;
    }
    Some(value)
}

// The index of the first space from an index on, or the length.
pub fn word_end(line: &[u8], from: usize) -> usize
    requires { from ≤ length line.now }
    ensures { result ≡ from + length (up_to_space (drop from line.now)) }
{
    for i in from..line.len() {
        if line[i] == SPACE {
            return i;
        }
    }
    line.len()
}
