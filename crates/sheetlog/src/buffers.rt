// The line that is being read, and the output that is not yet written.
ghost use Rattle.std.specs.Prelude.{◌≡◌, [], ◌∷◌, ◌++◌, ◌+◌, ◌*◌, ◌≤◌, length, take};
ghost use Rattle.transcript.specs.Text.{Appended};
ghost use Rattle.transcript.specs.Claims.{longest_answer};
ghost use Rattle.sheetlog.specs.Output.{feed_byte, rest_text, end_text};
ghost use Rattle.sheetlog.specs.Blocks.{kept_size, end_size, cut, block, held, Holds, Room};

use super::reply::reply;
use record::layout::RECORD_SIZE;
use replica::lists::{hand_journal, hand_leaders};
use transcript::text::{ANSWER_SIZE, ITEM_SIZE, LINE_FEED, put_list, put_other};

// One byte more than the longest line of the form has: a letter, and the words of a record.
// Of a longer line only these bytes are kept; they are of another form, as it is.
pub const KEPT: usize = 1 + ITEM_SIZE * RECORD_SIZE + 1;

// How many bytes are read at a time.
pub const BLOCK: usize = 8192;

// Room for an answer to each byte of a block: a line may be a line feed alone.
pub const OUTPUT: usize = ANSWER_SIZE * BLOCK;

// How much of the line is kept, and how much of the output buffer is filled.
#[derive(Clone, Copy)]
pub struct Fill {
    pub kept: usize,
    pub filled: usize,
}

// Keeps one byte more of the line, if there is room.
fn keep(line: &mut [u8], kept: usize, b: u8) -> usize
    requires { (length line.old ≡ kept_size) × (kept ≤ length line.old) }
    ensures upper_bound { result ≤ length line.new }
    ensures line_after { take result line.new ≡ take kept_size (take kept line.old ++ b ∷ []) }
{
    if kept < line.len() {
        line[kept] = b;
        return kept + 1;
    }
    kept
}

// Takes one byte of the input.
fn take_byte(b: u8, line: &mut [u8], fill: Fill, out: &mut [u8], state: &mut [u32]) -> Fill
    requires { Room 1 line.old fill out.old }
    ensures filled_bound { result.filled ≤ fill.filled + longest_answer }
    ensures holds { Holds (cut (feed_byte (held line.old fill out.old state.old) b))
        line.new result out.new state.new }
{
    let kept = fill.kept;
    let filled = fill.filled;
    if b == LINE_FEED {
        let end = reply(state, &line[..kept], out, filled);
        return Fill {
            kept: 0,
            filled: end,
        };
    }
    Fill {
        kept: keep(line, kept, b),
        filled,
    }
}

// Takes a block of the input, and puts the replies of the lines that it ends at the start of the output buffer.
pub fn answer_block(
    input: &[u8],
    line: &mut [u8],
    kept: usize,
    out: &mut [u8],
    state: &mut [u32],
) -> Fill
    requires { Room (length input.now) line.old (record { kept = kept; filled = 0 }) out.old }
    ensures { Holds (block (take kept line.old) state.old input.now)
        line.new result out.new state.new }
{
    let mut fill = Fill { kept, filled: 0 };
    for b in input {
        fill = take_byte(*b, line, fill, out, state);
    }
    fill
}

// The bytes that no line feed ended count as a line of another form.
fn answer_rest(rest: &[u8], out: &mut [u8]) -> usize
    requires { 2 ≤ length out.old }
    ensures { Appended out.old 0 (rest_text rest.now) out.new result }
{
    if rest.len() == 0 {
        return 0;
    }
    put_other(out, 0)
}

// Puts what is printed at the end at the start of the output buffer, which has room for every word of the state twice.
pub fn answer_end(rest: &[u8], state: &[u32], out: &mut [u8]) -> usize
    requires { end_size (length state.now) ≤ length out.old }
    ensures { Appended out.old 0 (end_text rest.now state.now) out.new result }
{
    let first = answer_rest(rest, out);
    let last = put_list(out, first, b'L', hand_leaders(state, 0));
    put_list(out, last, b'J', hand_journal(state, 0))
}
