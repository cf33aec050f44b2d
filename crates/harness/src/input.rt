// Commands from a reader, read in blocks.
ghost use Rattle.std.specs.Prelude.{◌≤◌, length, IfOk};

use std::io;
use std::io::Read;

// The next byte of the block, and how many bytes it has.
#[derive(Clone, Copy)]
pub struct Cursor {
    pub at: usize,
    pub end: usize,
}

// A word, and the cursor after it.
#[derive(Clone, Copy)]
pub struct Step {
    pub word: u32,
    pub cursor: Cursor,
}

#[derive(Clone, Copy)]
pub struct Command {
    pub op: u32,
    pub a: u32,
    pub b: u32,
    pub cursor: Cursor,
}

// The word at a place of the block, 0 if it does not lie within.
fn load(block: &[u8], at: usize) -> u32 {
    if block.len() < 4 {
        return 0;
    }
    if block.len() - 4 < at {
        return 0;
    }
    u32::from_le_bytes([block[at], block[at + 1], block[at + 2], block[at + 3]])
}

// Reads until the block is full or the input ends, and gives how many bytes it put at the start of the block.
fn read_full<R: Read>(reader: &mut R, block: &mut [u8]) -> io::Result<usize>
    ensures { IfOk result (λ n. n ≤ length block.new) }
{
    let mut done: usize = 0;
    while done < block.len() {
        let n = reader.read(&mut block[done..])?;
        if n == 0 {
            break;
        }
        done += n;
    }
    Ok(done)
}

// Reads the next block if this one is used up. A full block has whole words only.
fn fill<R: Read>(reader: &mut R, block: &mut [u8], cursor: Cursor) -> io::Result<Cursor> {
    if cursor.at < cursor.end {
        return Ok(cursor);
    }
    let end = read_full(reader, block)?;
    Ok(Cursor { at: 0, end })
}

// The next word, 0 at the end of the input.
fn next_word<R: Read>(reader: &mut R, block: &mut [u8], cursor: Cursor) -> io::Result<Step> {
    let now = fill(reader, block, cursor)?;
    if now.end <= now.at {
        return Ok(Step {
            word: 0,
            cursor: now,
        });
    }
    let word = load(block, now.at);
    let at = now.at.wrapping_add(4);
    Ok(Step {
        word,
        cursor: Cursor { at, end: now.end },
    })
}

pub fn next_command<R: Read>(
    reader: &mut R,
    block: &mut [u8],
    cursor: Cursor,
) -> io::Result<Command> {
    let op = next_word(reader, block, cursor)?;
    let a = next_word(reader, block, op.cursor)?;
    let b = next_word(reader, block, a.cursor)?;
    Ok(Command {
        op: op.word,
        a: a.word,
        b: b.word,
        cursor: b.cursor,
    })
}
