// Lines of numbers, to a writer.
use std::io;
use std::io::Write;

// A number and a space.
pub fn put<W: Write>(out: &mut W, x: u32) -> io::Result<()> {
    write!(out, "{x} ")
}

// The last number of a line.
pub fn put_last<W: Write>(out: &mut W, x: u32) -> io::Result<()> {
    writeln!(out, "{x}")
}

// Every word.
pub fn put_words<W: Write>(out: &mut W, words: &[u32]) -> io::Result<()> {
    for word in words {
        put(out, *word)?;
    }
    Ok(())
}

// How many words there are, and each.
pub fn put_list<W: Write>(out: &mut W, words: &[u32]) -> io::Result<()> {
    write!(out, "{} ", words.len())?;
    put_words(out, words)
}

// h * 31 + word, modulo 2 to the 32.
fn mix(h: u32, word: u32) -> u32 {
    h.wrapping_mul(31).wrapping_add(word)
}

// One number that stands for every word in its place.
pub fn checksum(words: &[u32]) -> u32 {
    let mut h: u32 = 0;
    for word in words {
        h = mix(h, *word);
    }
    h
}
