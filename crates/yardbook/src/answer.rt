// What the exported calls answer, laid out as C lays out a struct.
ghost use Rattle.std.specs.Prelude.{◌≡◌};
ghost use Rattle.yardbook.specs.Plain.{plain_of, status_plain, proposal_plain};

use record::layout::RECORD_SIZE;
use record::refusal::Refusal;
use replica::answer::{Added, NOTHING, Status as Head};

#[repr(C)]
#[derive(Clone, Copy)]
pub struct Answer {
    pub number: u32,
    pub id: u32,
    pub leaders: u32,
    pub journal: u32,
}

#[repr(C)]
#[derive(Clone, Copy)]
pub struct Status {
    pub number: u32,
    pub current_round: u32,
    pub committed_round: u32,
    pub leader_count: u32,
    pub journal_count: u32,
}

// The answer, and the words of the record.
#[repr(C)]
#[derive(Clone, Copy)]
pub struct Proposal {
    pub answer: Answer,
    pub words: [u32; RECORD_SIZE],
}

// A part of the lent words, as its first word and how many there are.
#[repr(C)]
#[derive(Clone, Copy)]
pub struct Part {
    pub number: u32,
    pub start: u32,
    pub length: u32,
}

impl From<Result<Added, Refusal>> for Answer {
    ghost from_gives = { λ answer plain. plain ≡ plain_of answer };

    fn from(answer: Result<Added, Refusal>) -> Answer {
        match answer {
            Ok(added) => Answer {
                number: 0,
                id: 0,
                leaders: added.leaders,
                journal: added.journal,
            },
            Err(why) => Answer {
                number: why.number(),
                id: why.missing_id().unwrap_or(0),
                leaders: 0,
                journal: 0,
            },
        }
    }
}

impl From<Result<[u32; RECORD_SIZE], Refusal>> for Proposal {
    ghost from_gives = { λ proposal plain. plain ≡ proposal_plain proposal };

    fn from(proposal: Result<[u32; RECORD_SIZE], Refusal>) -> Proposal {
        match proposal {
            Ok(words) => Proposal {
                answer: Answer::from(Ok(NOTHING)),
                words,
            },
            Err(why) => Proposal {
                answer: Answer::from(Err(why)),
                words: [0; RECORD_SIZE],
            },
        }
    }
}

impl From<Result<Head, Refusal>> for Status {
    ghost from_gives = { λ status plain. plain ≡ status_plain status };

    fn from(status: Result<Head, Refusal>) -> Status {
        match status {
            Ok(head) => Status {
                number: 0,
                current_round: head.current_round,
                committed_round: head.committed_round,
                leader_count: head.leader_count,
                journal_count: head.journal_count,
            },
            Err(why) => Status {
                number: why.number(),
                current_round: 0,
                committed_round: 0,
                leader_count: 0,
                journal_count: 0,
            },
        }
    }
}
