// A group, and what the questions need of it and a round.
ghost use Rattle.std.specs.Prelude.{◌≡◌, ◌-◌, ◌≤◌, ◌<◌};
ghost use Rattle.record.specs.Members.{leader, leader_at};
ghost use Rattle.record.specs.Handed.{QuorumOf};
ghost use Rattle.record.specs.Terms.{largest_strong};

use super::members::{largest_mask, leader_of, quorum_of};

// How many members it has, and how many of them make a quorum.
#[derive(Clone, Copy)]
pub struct Group {
    pub n: u32,
    pub quorum: u32,
    ghost enough: { QuorumOf n quorum },
}

impl Group {
    pub fn of(n: u32) -> Group
        ensures { result.n ≡ n }
    {
        Group {
            n,
            quorum: quorum_of(n),
        }
    }
}

// The leader of the round before. Round 1 has none.
fn previous_leader(n: u32, round: u32) -> u32
    requires { (0 < n) × (1 ≤ round) }
    ensures { result ≡ leader n (round - 1) }
{
    if round == 1 {
        return 0;
    }
    leader_of(n, round - 1)
}

fn largest_strong(n: u32, round: u32) -> u32
    ensures { result ≡ largest_strong n round }
{
    if round == 1 {
        return 0;
    }
    largest_mask(n)
}

// A round of a group: the leaders of the round before it and of its own, and the largest strong mask.
#[derive(Clone, Copy)]
pub struct Terms {
    pub group: Group,
    pub round: u32,
    pub previous: u32,
    pub leader: u32,
    pub largest: u32,
    ghost previous_is: { previous ≡ leader_at group.n (round - 1) 0 },
    ghost leader_is: { leader ≡ leader_at group.n round 0 },
    ghost largest_is: { largest ≡ largest_strong group.n round },
}

impl Terms {
    pub fn of(group: Group, round: u32) -> Terms
        requires { (0 < group.n) × (1 ≤ round) }
        ensures { (result.group ≡ group) × (result.round ≡ round) }
    {
        Terms {
            group,
            round,
            previous: previous_leader(group.n, round),
            leader: leader_of(group.n, round),
            largest: largest_strong(group.n, round),
        }
    }
}
