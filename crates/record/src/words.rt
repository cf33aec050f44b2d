// Words of one part copied to another, and words that are zero.
ghost use Rattle.std.specs.Prelude.{◌≡◌, eqb, length, get_or};
ghost use Rattle.record.specs.Below.{all};

// The words become those of a part of the same length.
pub fn copy_words(words: &mut [u32], from: &[u32])
    requires { length words.old ≡ length from.now }
    ensures { words.new ≡ from.now }
{
    // `copy_from_slice` would call memmove, and the archive calls nothing but memset.
    for (i, word) in from.iter().enumerate() {
        words[i] = *word;
    }
}

// Every word of the part is 0. The words are joined before they are tested, so that no word costs a branch.
pub fn is_zero(part: &[u32]) -> bool
    ensures { result ≡ all (length part.now) (λ i. eqb (get_or part.now i 0) 0) }
{
    let mut joined: u32 = 0;
    for word in part {
        joined |= *word;
    }
    joined == 0
}
