// Lines of output.
ghost use Rattle.std.specs.Prelude.{◌≡◌, [], ◌∷◌, ◌+◌, ◌*◌, ◌%◌, ◌≤◌, ◌<◌, length, drop};
ghost use Rattle.transcript.specs.Grammar.{zero_digit};
ghost use Rattle.transcript.specs.Text.{digit_count, item_size, decimal, items, answer_text, other_text, list_text, Appended};

use super::numeral::{SPACE, ZERO};

pub const LINE_FEED: u8 = b'\n';

const QUESTION_MARK: u8 = b'?';

// The most digits of a number, and with a space before them.
const DIGITS: usize = 10;

pub const ITEM_SIZE: usize = 1 + DIGITS;

// The numbers of the status.
pub const STATUS_SIZE: usize = 4;

// The longest line of an answer: its number and those of the status, and a space or the line feed after each.
pub const ANSWER_SIZE: usize = ITEM_SIZE * (1 + STATUS_SIZE);

// The digits stand from `start` on.
#[derive(Drop)]
pub struct Digits {
    pub bytes: [u8; DIGITS],
    pub start: usize,
}

fn last_digit(n: u32) -> u8
    ensures { result ≡ zero_digit + n % 10 }
{
    ZERO + (n % 10) as u8
}

fn digits_of(n: u32) -> Digits
    ensures { (length result.bytes ≡ digit_count) × (result.start ≤ digit_count) × (drop result.start result.bytes ≡ decimal n) }
{
    let mut bytes = [ZERO; DIGITS];
    if n == 0 {
        return Digits {
            bytes,
            start: DIGITS - 1,
        };
    }
    let mut rest = n;
    for i in (0..DIGITS).rev() {
        if rest == 0 {
            return Digits {
                bytes,
                start: i + 1,
            };
        }
        bytes[i] = last_digit(rest);
        rest /= 10;
    }
    Digits { bytes, start: 0 }
}

fn put_byte(out: &mut [u8], at: usize, b: u8) -> usize
    requires { at < length out.old }
    ensures { Appended out.old at (b ∷ []) out.new result }
{
    out[at] = b;
    at + 1
}

// Copies a text into a buffer that has room for it.
fn put_bytes(out: &mut [u8], at: usize, text: &[u8]) -> usize
    requires { at + length text.now ≤ length out.old }
    ensures { Appended out.old at text.now out.new result }
{
    let end = at + text.len();
    out[at..end].copy_from_slice(text);
    end
}

fn put_number(out: &mut [u8], at: usize, n: u32) -> usize
    requires { at + digit_count ≤ length out.old }
    ensures { Appended out.old at (decimal n) out.new result }
{
    let digits = digits_of(n);
    let bytes = digits.bytes;
    let start = digits.start;
    put_bytes(out, at, &bytes[start..])
}

// The numbers, each after a space.
fn put_items(out: &mut [u8], at: usize, numbers: &[u32]) -> usize
    requires { at + item_size * length numbers.now ≤ length out.old }
    ensures { Appended out.old at (items numbers.now) out.new result }
{
    let mut end = at;
    for number in numbers {
        let start = put_byte(out, end, SPACE);
        end = put_number(out, start, *number);
    }
    end
}

// The line of an answer: its number, and the numbers of the status.
pub fn put_answer(out: &mut [u8], at: usize, number: u32, status: &[u32]) -> usize
    requires { at + item_size * (1 + length status.now) ≤ length out.old }
    ensures { Appended out.old at (answer_text number status.now) out.new result }
{
    let first = put_number(out, at, number);
    let last = put_items(out, first, status);
    put_byte(out, last, LINE_FEED)
}

// The line of an input line of another form.
pub fn put_other(out: &mut [u8], at: usize) -> usize
    requires { at + 2 ≤ length out.old }
    ensures { Appended out.old at other_text out.new result }
{
    let last = put_byte(out, at, QUESTION_MARK);
    put_byte(out, last, LINE_FEED)
}

// A list after its letter.
pub fn put_list(out: &mut [u8], at: usize, letter: u8, ids: &[u32]) -> usize
    requires { at + item_size * length ids.now + 2 ≤ length out.old }
    ensures { Appended out.old at (list_text letter ids.now) out.new result }
{
    let first = put_byte(out, at, letter);
    let last = put_items(out, first, ids);
    put_byte(out, last, LINE_FEED)
}
