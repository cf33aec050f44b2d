// Calls on one replica state, a line each, from standard input; their answers to standard output.
#![tactic(auto)]

mod buffers;
mod reply;

ghost use Rattle.std.specs.Prelude.{◌≤◌, ◌<◌, length, take, IfOk, OnOk, IfSome};
ghost use Rattle.std.specs.Io.KnownBytes.{Appends};
ghost use Rattle.sheetlog.specs.Output.{output};
ghost use Rattle.sheetlog.specs.Blocks.{Room};
ghost use Rattle.sheetlog.specs.Streams.{IsShort, Answered};

use buffers::{BLOCK, KEPT, OUTPUT, answer_block, answer_end};
use replica::layout::STATE_SIZE;
use std::io;
use std::io::{Read, Write};

// Writes the first bytes of a buffer.
fn flush<W: Write>(writer: &mut W, out: &[u8], filled: usize) -> io::Result<()>
    requires { filled ≤ length out.now }
    ensures { OnOk result (Appends (W.contents writer.old) (W.contents writer.new) (take filled out.now)) }
{
    writer.write_all(&out[..filled])
}

// Reads and answers to the end of the input, and gives the length of what follows the last line feed. Each block is answered before
// the next is read. A read or a write that fails ends it with that error.
// Nothing says that an input ends, so the loop counts its blocks, up to a number that no run reaches, and takes the input as ended there.
fn answer_all<R: Read, W: Write>(
    reader: &mut R,
    writer: &mut W,
    input: &mut [u8],
    line: &mut [u8],
    out: &mut [u8],
    state: &mut [u32],
) -> io::Result<usize>
    requires { Room (length input.old) line.old (record { kept = 0; filled = 0 }) out.old }
    ensures kept { IfOk result (λ kept. kept ≤ length line.new) }
    ensures answered { 0 < length input.old → IfOk result (λ kept. IfSome (R.remaining reader.old) (λ bytes. IsShort bytes
        → Answered bytes state.old (W.contents writer.old) (W.contents writer.new) line.new kept state.new)) }
{
    let mut kept: usize = 0;
    for turn in 0..u64::MAX {
        let n = reader.read(input)?;
        if n == 0 {
            return Ok(kept);
        }
        let fill = answer_block(&input[..n], line, kept, out, state);
        flush(writer, out, fill.filled)?;
        kept = fill.kept;
    }
    Ok(kept)
}

// Answers what the reader has left, and writes the whole output to the writer.
fn run<R: Read, W: Write>(reader: &mut R, writer: &mut W) -> io::Result<()>
    ensures { OnOk result (IfSome (R.remaining reader.old)
        (λ bytes. IsShort bytes → Appends (W.contents writer.old) (W.contents writer.new) (output bytes))) }
{
    let mut state = [0u32; STATE_SIZE];
    let mut line = [0u8; KEPT];
    let mut input = [0u8; BLOCK];
    let mut out = [0u8; OUTPUT];
    let kept = answer_all(reader, writer, &mut input, &mut line, &mut out, &mut state)?;
    let filled = answer_end(&line[..kept], &state, &mut out);
    flush(writer, &out, filled)
}

fn main(rt: HostRuntime) -> io::Result<()> {
    run(&mut rt.stdin(), &mut rt.stdout())
}
