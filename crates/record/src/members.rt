// Rounds, masks of members, quorums and leaders.
ghost use Rattle.std.specs.Prelude.{◌≡◌, ◌<◌, ◌≤◌, ◌^◌, leb};
ghost use Rattle.std.specs.Int.Count.{ones};
ghost use Rattle.record.specs.Members.{rounds, is_round, legal, faulty, quorum, leader_at, leader, most_leaders};
ghost use Rattle.record.specs.Members.{has, within, with, without};
ghost use Rattle.record.specs.Terms.{largest_mask};

pub const ROUNDS: u32 = 32;

// One mask for each round.
pub const MASKS: usize = ROUNDS as usize;

// The rounds that the next one can vote for.
pub const VOTED_ROUNDS: u32 = 31;

// The ids of a round.
pub const SLOTS: u32 = 16;

// Every id of a round of the group is below it.
pub const ID_LIMIT: u32 = SLOTS * (ROUNDS + 1);

// A mask of members.
#[derive(Clone, Copy)]
pub struct Members {
    pub bits: u32,
}

// The round is 1 to 32.
pub fn is_round(round: u32) -> bool
    ensures { result ≡ is_round round }
{
    if round < 1 {
        return false;
    }
    round <= ROUNDS
}

// n is 4, 7, 10, 13 or 16.
pub fn is_legal(n: u32) -> bool
    ensures { result ≡ legal n }
{
    if n < 4 {
        return false;
    }
    if SLOTS < n {
        return false;
    }
    n % 3 == 1
}

pub fn faulty_of(n: u32) -> u32
    ensures { result ≡ faulty n }
{
    if n == 0 {
        return 0;
    }
    (n - 1) / 3
}

pub fn quorum_of(n: u32) -> u32
    ensures { result ≡ quorum n }
{
    2 * faulty_of(n) + 1
}

pub fn leader_of(n: u32, round: u32) -> u32
    requires { (0 < n) × (1 ≤ round) }
    ensures { result ≡ leader n round }
{
    (round - 1) % n
}

// Leader i of the round: leader 0 is the main one.
pub fn leader_at(n: u32, round: u32, i: u32) -> u32
    requires { (0 < n) × (1 ≤ round) × (round ≤ rounds) × (i < most_leaders) }
    ensures { result ≡ leader_at n round i }
{
    (round - 1 + i) % n
}

// The word with bit p alone.
pub fn power(p: u32) -> u32
    requires { p < 32 }
    ensures { result ≡ 2 ^ p }
{
    1u32 << p
}

// Bit p of the word is set.
pub fn has_bit(word: u32, p: u32) -> bool
    requires { p < 32 }
    ensures { result ≡ has word p }
{
    (word >> p) % 2 == 1
}

// The largest mask of n members. Of 32 or more every word is one.
pub fn largest_mask(n: u32) -> u32
    ensures { result ≡ largest_mask n }
{
    if n >= 32 {
        return u32::MAX;
    }
    power(n) - 1
}

// The mask has no bit at n or above.
pub fn is_within(n: u32, bits: u32) -> bool
    ensures { result ≡ within n bits }
{
    bits <= largest_mask(n)
}

impl Members {
    pub fn with(self, p: u32) -> Members
        requires { p < 32 }
        ensures { result ≡ with self p }
    {
        Members {
            bits: self.bits | power(p),
        }
    }

    pub fn without(self, p: u32) -> Members
        requires { p < 32 }
        ensures { result ≡ without self p }
    {
        Members {
            bits: self.bits ^ (self.bits & power(p)),
        }
    }

    pub fn has(self, p: u32) -> bool
        requires { p < 32 }
        ensures { result ≡ has self.bits p }
    {
        has_bit(self.bits, p)
    }

    // The mask has at least so many members. Every quorum test is this one.
    pub fn meets_quorum(self, quorum: u32) -> bool
        ensures { result ≡ leb quorum (ones self.bits) }
    {
        quorum <= u32::count_ones(self.bits)
    }
}
