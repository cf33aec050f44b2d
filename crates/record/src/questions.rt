// Questions 4 to 11: each a small function, and the checks that ask them in turn.
ghost use Rattle.std.specs.Prelude.{◌≡◌, ◌&&◌, ◌||◌, ◌<◌, ◌≤◌, eqb, ltb, length};
ghost use Rattle.record.specs.Below.{all};
ghost use Rattle.record.specs.Members.{rounds, within};
ghost use Rattle.record.specs.Refusals.{number_of};
ghost use Rattle.record.specs.Layout.{body_size, weak_slots, weak_of};
ghost use Rattle.record.specs.Questions.{all_within, lacks_leader, weak_id_ok, used_ok, weak_ok};
ghost use Rattle.record.specs.Questions.{signer_refusal, body_refusal, record_refusal};
ghost use Rattle.record.specs.Handed.{handed_strong, handed_if, handed_refusal};
ghost use Rattle.record.specs.Inner.{certified, masks_admitted, Known, used_slots, before_ids};
ghost use Rattle.record.specs.Terms.{largest_mask};

use super::group::{Group, Terms};
use super::layout::{
    BODY, BODY_SIZE, NO_VOTES, RECORD_SIZE, ROUND, SOURCE, STRONG, TIMEOUTS, WEAK, WEAK_COUNT,
    WEAK_SLOTS,
};
use super::members::{Members, SLOTS, faulty_of, has_bit, is_round, is_within};
use super::refusal::Refusal;
use super::words::is_zero;

// The number before the first id.
const BEFORE_IDS: u32 = SLOTS - 1;

// 7
fn masks_ok(n: u32, strong: u32, timeouts: u32, no_votes: u32) -> bool
    ensures { result ≡ all_within n strong timeouts no_votes }
{
    is_within(n, strong | (timeouts | no_votes))
}

// 8, and 7 of the strong mask.
fn strong_ok(terms: &Terms, strong: u32) -> bool
    ensures { result ≡ (within terms.now.group.n strong && handed_strong terms.now.group.quorum terms.now.round strong) }
{
    if terms.largest < strong {
        return false;
    }
    if terms.round == 1 {
        return true;
    }
    let members = Members { bits: strong };
    members.meets_quorum(terms.group.quorum)
}

// The strong mask lacks the previous leader.
pub fn lacks_leader(terms: &Terms, strong: u32) -> bool
    requires { terms.now.round ≤ rounds }
    ensures { result ≡ lacks_leader terms.now.group.n terms.now.round strong }
{
    if terms.round < 2 {
        return false;
    }
    !has_bit(strong, terms.previous)
}

// The mask is a quorum where it is wanted, and 0 where not: 9, of the timeout mask.
pub fn quorum_if(quorum: u32, wanted: bool, mask: u32) -> bool
    ensures { result ≡ handed_if quorum wanted mask }
{
    if wanted {
        let members = Members { bits: mask };
        return members.meets_quorum(quorum);
    }
    mask == 0
}

// 10
fn no_votes_ok(terms: &Terms, source: u32, lack: bool, no_votes: u32) -> bool
    ensures { result ≡ handed_if terms.now.group.quorum (lack && eqb source terms.now.leader) no_votes }
{
    let leads = source == terms.leader;
    if leads {
        return quorum_if(terms.group.quorum, lack, no_votes);
    }
    no_votes == 0
}

// 11, of the weak id x: it is above the last one, of a member below n, and at least two rounds below the record.
fn weak_id_ok(n: u32, round: u32, last: u32, x: u32) -> bool
    requires { (before_ids ≤ last) × (1 ≤ round) × (round ≤ rounds) }
    ensures { result ≡ (ltb last x && weak_id_ok n round x) }
{
    if x <= last {
        return false;
    }
    if n <= x % SLOTS {
        return false;
    }
    x < SLOTS * (round - 1)
}

// So for so many weak ids. The one before the first counts as below every id.
fn weak_ids_ok(n: u32, round: u32, body: &[u32], count: usize) -> bool
    requires { (length body.now ≡ body_size) × (count ≤ weak_slots) × (1 ≤ round) × (round ≤ rounds) }
    ensures { result ≡ all count (used_ok n round body.now) }
{
    let mut last = BEFORE_IDS;
    for &x in &body[WEAK..WEAK + count] {
        if !weak_id_ok(n, round, last, x) {
            return false;
        }
        last = x;
    }
    true
}

// The slots from so many on are 0.
fn slots_zero(body: &[u32], count: usize) -> bool
    requires { (length body.now ≡ body_size) × (count ≤ weak_slots) }
    ensures { result ≡ all weak_slots (λ i. ltb i count || eqb (weak_of body.now i) 0) }
{
    is_zero(&body[WEAK + count..BODY_SIZE])
}

// How many slots are used. Only a group of more than 16 members may use more weak ids than there are slots.
fn used_slots(body: &[u32]) -> usize
    requires { length body.now ≡ body_size }
    ensures { result ≡ used_slots body.now }
{
    let count = body[WEAK_COUNT] as usize;
    if WEAK_SLOTS < count {
        return WEAK_SLOTS;
    }
    count
}

// 11. Most records have no weak id: for them one test of the slots is enough.
fn weak_ok(n: u32, round: u32, body: &[u32]) -> bool
    requires { (length body.now ≡ body_size) × (1 ≤ round) × (round ≤ rounds) }
    ensures { result ≡ weak_ok n round body.now }
{
    if body[WEAK_COUNT] == 0 {
        return slots_zero(body, 0);
    }
    let most = faulty_of(n);
    if most < body[WEAK_COUNT] {
        return false;
    }
    let count = used_slots(body);
    if !weak_ids_ok(n, round, body, count) {
        return false;
    }
    slots_zero(body, count)
}

// 9 and 10, and 7 of the two masks, where the strong mask lacks the previous leader. The round is not the first then.
fn certificates_ok(terms: &Terms, source: u32, timeouts: u32, no_votes: u32) -> bool
    requires { terms.now.largest ≡ largest_mask terms.now.group.n }
    ensures { result ≡ certified terms.now.group.n terms.now.group.quorum (eqb source terms.now.leader) timeouts no_votes }
{
    if terms.largest < timeouts | no_votes {
        return false;
    }
    if !quorum_if(terms.group.quorum, true, timeouts) {
        return false;
    }
    no_votes_ok(terms, source, true, no_votes)
}

// 7 to 10, of a body of which 4 to 6 are known to be answered yes. Most masks have the previous leader: for them the other two masks
// are tested at once.
fn masks_admitted(terms: &Terms, source: u32, body: &[u32]) -> bool
    requires { Known terms.now.group.n terms.now.round source body.now }
    ensures { result ≡ masks_admitted terms.now.group.n terms.now.group.quorum terms.now.round source body.now }
{
    let strong = body[STRONG];
    let timeouts = body[TIMEOUTS];
    let no_votes = body[NO_VOTES];
    if !strong_ok(terms, strong) {
        return false;
    }
    if lacks_leader(terms, strong) {
        return certificates_ok(terms, source, timeouts, no_votes);
    }
    timeouts | no_votes == 0
}

// Whether 5 to 11 are all answered yes, of a body of which 4 to 6 are known to be.
pub fn is_admitted(terms: &Terms, source: u32, body: &[u32]) -> bool
    requires { Known terms.now.group.n terms.now.round source body.now }
    ensures { result ≡ eqb (number_of (body_refusal terms.now.group.n terms.now.round source body.now)) 0 }
{
    if !masks_admitted(terms, source, body) {
        return false;
    }
    weak_ok(terms.group.n, terms.round, body)
}

// 7 to 11 in turn, of a body of which 4 to 6 are known to be answered yes.
fn check_known(terms: &Terms, source: u32, body: &[u32]) -> Result<(), Refusal>
    requires { Known terms.now.group.n terms.now.round source body.now }
    ensures { result ≡ handed_refusal terms.now.group.n terms.now.group.quorum terms.now.round source body.now }
{
    let n = terms.group.n;
    let strong = body[STRONG];
    let timeouts = body[TIMEOUTS];
    let no_votes = body[NO_VOTES];
    if !masks_ok(n, strong, timeouts, no_votes) {
        return Err(Refusal::MaskBits);
    }
    if !strong_ok(terms, strong) {
        return Err(Refusal::Strong);
    }
    let lack = lacks_leader(terms, strong);
    if !quorum_if(terms.group.quorum, lack, timeouts) {
        return Err(Refusal::Timeouts);
    }
    if !no_votes_ok(terms, source, lack, no_votes) {
        return Err(Refusal::NoVotes);
    }
    if !weak_ok(n, terms.round, body) {
        return Err(Refusal::Weak);
    }
    Ok(())
}

// 5 and 6 in turn, of a round and a source or signer.
pub fn check_signer(n: u32, round: u32, signer: u32) -> Result<(), Refusal>
    ensures { result ≡ signer_refusal n round signer }
{
    if !is_round(round) {
        return Err(Refusal::Round);
    }
    if n <= signer {
        return Err(Refusal::Source);
    }
    Ok(())
}

// 4 to 11 in turn, of a body whose round and source are given.
pub fn check_body(group: Group, round: u32, source: u32, body: &[u32]) -> Result<(), Refusal>
    ensures { result ≡ body_refusal group.n round source body.now }
{
    if body.len() != BODY_SIZE {
        return Err(Refusal::RecordSize);
    }
    check_signer(group.n, round, source)?;
    check_known(&Terms::of(group, round), source, body)
}

// 4 to 11 in turn, of a whole record.
pub fn check(group: Group, rec: &[u32]) -> Result<(), Refusal>
    ensures { result ≡ record_refusal group.n rec.now }
{
    if rec.len() != RECORD_SIZE {
        return Err(Refusal::RecordSize);
    }
    check_body(group, rec[ROUND], rec[SOURCE], &rec[BODY..RECORD_SIZE])
}
