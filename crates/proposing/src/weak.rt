// The weak ids of the record that is made.
ghost use Rattle.std.specs.Prelude.{◌≡◌, ◌-◌, ◌<◌, ◌≤◌, length};
ghost use Rattle.record.specs.Members.{rounds, slots};
ghost use Rattle.record.specs.Layout.{weak_slots};
ghost use Rattle.replica.specs.Layout.{state_size};
ghost use Rattle.proposing.specs.Inner.{count_in, add_weak, offer_id, offer_round, offer_rounds};

use record::layout::{BODY, RECORD_SIZE, WEAK, WEAK_COUNT};
use record::members::{MASKS, SLOTS, has_bit};
use replica::layout::HELD;
use replica::masks::mask_of;

// The id follows the record's weak ids.
fn add_weak(words: &mut [u32; RECORD_SIZE], id: u32)
    requires { count_in words.old < weak_slots }
    ensures { words.new ≡ add_weak words.old id }
{
    let count = words[BODY + WEAK_COUNT];
    words[BODY + WEAK + count as usize] = id;
    words[BODY + WEAK_COUNT] = count + 1;
}

// The id becomes a weak id if the held mask, of its round, has its member and the reached one has not, and the record has fewer than
// that many.
fn offer_id(words: &mut [u32; RECORD_SIZE], most: u32, held: u32, reached: u32, id: u32)
    requires { most ≤ weak_slots }
    ensures { words.new ≡ offer_id words.old most held reached id }
{
    if !has_bit(held, id % SLOTS) {
        return;
    }
    if has_bit(reached, id % SLOTS) {
        return;
    }
    if most <= words[BODY + WEAK_COUNT] {
        return;
    }
    add_weak(words, id);
}

// So for the ids of the round, by rising member. A round of which all that is held is reached has none.
fn offer_round(words: &mut [u32; RECORD_SIZE], most: u32, held: u32, reached: u32, round: u32)
    requires { (most ≤ weak_slots) × (round ≤ rounds) }
    ensures { words.new ≡ offer_round words.old most held reached round slots }
{
    if held & reached == held {
        return;
    }
    for p in 0..SLOTS {
        offer_id(words, most, held, reached, SLOTS * round + p);
    }
}

// So for the rounds up to two below the record's, by rising round.
pub fn offer_rounds(
    state: &[u32],
    words: &mut [u32; RECORD_SIZE],
    most: u32,
    reached: [u32; MASKS],
    round: u32,
)
    requires { (length state.now ≡ state_size) × (most ≤ weak_slots) × (2 ≤ round) × (round ≤ rounds) }
    ensures { words.new ≡ offer_rounds words.old most state.now reached (round - 2) }
{
    for t in 0..round - 2 {
        offer_round(
            words,
            most,
            mask_of(state, HELD, t + 1),
            reached[t as usize],
            t + 1,
        );
    }
}
