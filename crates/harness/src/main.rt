// Runs the calls on any words, sizes and numbers, as the commands on standard input say, and prints every answer with a checksum of
// every lent word.
//
// The input is words of 32 bits, low byte first. A command is three words: an operation and its two arguments a and b.
//   0      ends the run, as the end of the input does
//   1 a    a words are lent from now on, all zero, at most 136 more than a state has
//   2 a b  word a becomes b, if it is lent
//   3 a b  opens for a members, with the own word b
//   4      status
//   5 a    asks for the leader list from a on
//   6 a    asks for the journal from a on
//   7 a    hands over the leader list from a on
//   8 a    hands over the journal from a on
//   9      takes a vertex with the record
//   10     takes a first message with the record
//   11 a b takes a timeout of round a and signer b
//   12 a b takes a no-vote of round a and signer b
//   13 a   the record has a words from now on, all zero, at most eight more than a record has
//   14 a b word a of the record becomes b, if the record has it
//   15     makes our own vertex with the digest
//   16     signs our own no-vote
//   17 a b takes the timeouts of round a by the members of the mask b
//   18     takes a vertex with the pending buffer and the record
//   19 a   the pending buffer has a words from now on, all zero, at most 15 more than a pending buffer has
//   20 a b word a of the pending buffer becomes b, if the buffer has it
//   21 a b word a of the digest, all zero at first, becomes b, if the digest has it
// A call prints a line: the operation, the numbers of the answer (of asking, the number alone; of making, the words of the record too; of a
// vertex with the pending buffer, the checksum of the buffer too), and the checksum.
#![tactic(auto)]

mod calls;
mod input;
mod output;

use calls::call;
use input::{Command, Cursor, next_command};
use pending::layout::BUFFER_SIZE;
use record::layout::{DIGEST_SIZE, RECORD_SIZE};
use replica::layout::STATE_SIZE;
use replica::opening::clear;
use std::io;
use std::io::{Read, Write};

// How many bytes of the input are read at a time.
const BLOCK: usize = 65536;

fn set(lent: &mut [u32], at: usize, word: u32) {
    if at < lent.len() {
        lent[at] = word;
    }
}

// How many words are lent, and how many the pending buffer and the record have.
#[derive(Clone, Copy)]
struct Sizes {
    lent: usize,
    kept: usize,
    length: usize,
}

// Carries a command out on so many words, and answers how many there are after it.
fn perform<W: Write>(
    out: &mut W,
    words: &mut [u32],
    buffer: &mut [u32],
    rec: &mut [u32],
    digest: &mut [u32; DIGEST_SIZE],
    sizes: Sizes,
    command: Command,
) -> io::Result<Sizes> {
    let lent = sizes.lent.min(words.len());
    let kept = sizes.kept.min(buffer.len());
    let length = sizes.length.min(rec.len());
    let op = command.op;
    let at = command.a as usize;
    match op {
        1 => {
            clear(words);
            let lent = at.min(words.len());
            return Ok(Sizes { lent, kept, length });
        }
        2 => set(&mut words[..lent], at, command.b),
        13 => {
            clear(rec);
            let length = at.min(rec.len());
            return Ok(Sizes { lent, kept, length });
        }
        14 => set(&mut rec[..length], at, command.b),
        19 => {
            clear(buffer);
            let kept = at.min(buffer.len());
            return Ok(Sizes { lent, kept, length });
        }
        20 => set(&mut buffer[..kept], at, command.b),
        21 => set(digest, at, command.b),
        _ => call(
            out,
            &mut words[..lent],
            &mut buffer[..kept],
            &rec[..length],
            digest,
            op,
            command.a,
            command.b,
        )?,
    }
    Ok(Sizes { lent, kept, length })
}

// A proved loop has to end, and nothing says that the input does: the loop counts its turns, up to a number that no run reaches.
fn run<R: Read, W: Write>(
    reader: &mut R,
    out: &mut W,
    words: &mut [u32],
    buffer: &mut [u32],
    rec: &mut [u32],
    block: &mut [u8],
) -> io::Result<()> {
    let mut digest = [0u32; DIGEST_SIZE];
    let mut cursor = Cursor { at: 0, end: 0 };
    let mut sizes = Sizes {
        lent: 0,
        kept: 0,
        length: 0,
    };
    for _ in 0..u64::MAX {
        let next = next_command(reader, block, cursor)?;
        if next.op == 0 {
            break;
        }
        sizes = perform(out, words, buffer, rec, &mut digest, sizes, next)?;
        cursor = next.cursor;
    }
    Ok(())
}

fn main(rt: HostRuntime) -> io::Result<()> {
    let mut words = [0u32; STATE_SIZE + 136];
    let mut buffer = [0u32; BUFFER_SIZE + 15];
    let mut rec = [0u32; RECORD_SIZE + 8];
    let mut block = [0u8; BLOCK];
    run(
        &mut rt.stdin(),
        &mut rt.stdout(),
        &mut words,
        &mut buffer,
        &mut rec,
        &mut block,
    )
}
