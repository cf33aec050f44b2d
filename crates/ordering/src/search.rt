// Question 14: the search for a parent that is not held.
ghost use Rattle.std.specs.Prelude.{◌≡◌, true, ℕ, ◌<◌};
ghost use Rattle.record.specs.Below.{least, if_below};
ghost use Rattle.record.specs.Members.{id_limit};
ghost use Rattle.record.specs.Layout.{weak_count_of, weak_of};
ghost use Rattle.replica.specs.State.{held_id};
ghost use Rattle.replica.specs.Parents.{missing};
ghost use Rattle.ordering.specs.Inner.{Searching};

use record::layout::{STRONG, WEAK, WEAK_COUNT};
use record::members::{SLOTS, has_bit};
use replica::layout::HELD;
use replica::masks::is_marked;

// The smallest id among the parents that are not held, where all weak ones are held.
fn first_missing_strong(state: &[u32], n: u32, round: u32, body: &[u32]) -> Option<u32>
    requires searching { Searching state.now n round body.now }
    requires weak_held { (k : ℕ) → k < weak_count_of body.now → held_id state.now (weak_of body.now k) ≡ true }
    ensures { result ≡ if_below id_limit (least id_limit (missing state.now round body.now)) }
{
    let strong = body[STRONG];
    for p in 0..n {
        if has_bit(strong, p) {
            let parent = SLOTS * (round - 1) + p;
            if !is_marked(state, HELD, parent) {
                return Some(parent);
            }
        }
    }
    None
}

// The smallest id among the parents that are not held. Weak ids rise, and lie in rounds before that of the strong parents,
// so it is the first that is found.
pub fn first_missing(state: &[u32], n: u32, round: u32, body: &[u32]) -> Option<u32>
    requires { Searching state.now n round body.now }
    ensures { result ≡ if_below id_limit (least id_limit (missing state.now round body.now)) }
{
    let end = WEAK + body[WEAK_COUNT] as usize;
    for weak in &body[WEAK..end] {
        if !is_marked(state, HELD, *weak) {
            return Some(*weak);
        }
    }
    first_missing_strong(state, n, round, body)
}
