// One line of input, without its line feed, to a command.
ghost use Rattle.std.specs.Prelude.{◌≡◌, ◌≤◌, length, drop};
ghost use Rattle.record.specs.Layout.{record_size};
ghost use Rattle.transcript.specs.Grammar.{scanned};
ghost use Rattle.transcript.specs.Commands.{kind_of, word_count, command_with, command_of};

use super::numeral::{SPACE, numeral, word_end};
use record::layout::RECORD_SIZE;

// What a line's letter says.
#[derive(Clone, Copy)]
enum Kind {
    Open,
    Vertex,
    First,
    Timeout,
    NoVote,
}

// A state opened for so many members, a record as a vertex or as a first message, or a note of a round and its signer.
#[derive(Drop)]
pub enum Command {
    Open(u32),
    Vertex([u32; RECORD_SIZE]),
    First([u32; RECORD_SIZE]),
    Timeout(u32, u32),
    NoVote(u32, u32),
}

fn kind_of(letter: u8) -> Option<Kind>
    ensures { result ≡ kind_of letter }
{
    match letter {
        b'O' => Some(Kind::Open),
        b'V' => Some(Kind::Vertex),
        b'F' => Some(Kind::First),
        b'T' => Some(Kind::Timeout),
        b'N' => Some(Kind::NoVote),
        _ => None,
    }
}

fn word_count(kind: Kind) -> usize
    ensures { result ≡ word_count kind }
{
    match kind {
        Kind::Open => 1,
        Kind::Vertex => RECORD_SIZE,
        Kind::First => RECORD_SIZE,
        Kind::Timeout => 2,
        Kind::NoVote => 2,
    }
}

// Reads that many words, each after a space, and nothing more.
fn read_words(line: &[u8], count: usize) -> Option<[u32; RECORD_SIZE]>
    requires { (count ≤ record_size) × (1 ≤ length line.now) }
    ensures { result ≡ scanned count (drop 1 line.now) }
{
    let mut words = [0u32; RECORD_SIZE];
    let mut at: usize = 1;
    for i in 0..count {
        if line.len() <= at {
            return None;
        }
        if line[at] != SPACE {
            return None;
        }
        let start = at + 1;
        let end = word_end(line, start);
        words[i] = numeral(&line[start..end])?;
        at = end;
    }
    if at != line.len() {
        return None;
    }
    Some(words)
}

// The command of that kind, of those of the words that it has.
fn command_with(kind: Kind, words: [u32; RECORD_SIZE]) -> Command
    ensures { result ≡ command_with kind words }
{
    match kind {
        Kind::Open => Command::Open(words[0]),
        Kind::Vertex => Command::Vertex(words),
        Kind::First => Command::First(words),
        Kind::Timeout => Command::Timeout(words[0], words[1]),
        Kind::NoVote => Command::NoVote(words[0], words[1]),
    }
}

// The command of a line, whatever bytes it has. A line of another form has none.
pub fn parse(line: &[u8]) -> Option<Command>
    ensures { result ≡ command_of line.now }
{
    let kind = kind_of(*line.first()?)?;
    let words = read_words(line, word_count(kind))?;
    Some(command_with(kind, words))
}
