// Why a call is refused.
ghost use Rattle.std.specs.Prelude.{◌≡◌, Err};
ghost use Rattle.record.specs.Refusals.{refusal_number, missing_in, is_missing, number_of};

#[derive(Clone, Copy)]
pub enum Refusal {
    StateSize,
    MemberCount,
    Malformed,
    RecordSize,
    Round,
    Source,
    MaskBits,
    Strong,
    Timeouts,
    NoVotes,
    Weak,
    Duplicate,
    Conflict,
    MissingParent(u32),
    PastEnd,
    Watcher,
    Signing,
    FewParents,
    Buffer,
    BufferFull,
}

impl Refusal {
    // The paper's number.
    pub fn number(self) -> u32
        ensures { result ≡ refusal_number self }
    {
        match self {
            Refusal::StateSize => 1,
            Refusal::MemberCount => 2,
            Refusal::Malformed => 3,
            Refusal::RecordSize => 4,
            Refusal::Round => 5,
            Refusal::Source => 6,
            Refusal::MaskBits => 7,
            Refusal::Strong => 8,
            Refusal::Timeouts => 9,
            Refusal::NoVotes => 10,
            Refusal::Weak => 11,
            Refusal::Duplicate => 12,
            Refusal::Conflict => 13,
            Refusal::MissingParent(_) => 14,
            Refusal::PastEnd => 15,
            Refusal::Watcher => 16,
            Refusal::Signing => 17,
            Refusal::FewParents => 18,
            Refusal::Buffer => 19,
            Refusal::BufferFull => 20,
        }
    }

    // The id of the missing parent, where that is the refusal.
    pub fn missing_id(self) -> Option<u32>
        ensures { result ≡ missing_in self }
    {
        match self {
            Refusal::MissingParent(id) => Some(id),
            _ => None,
        }
    }

    // The refusal is that of a missing parent, of whatever id.
    pub fn is_missing(self) -> bool
        ensures { result ≡ is_missing (Err self) }
    {
        matches!(self, Refusal::MissingParent(_))
    }
}

// The number of an answer: 0, or that of the refusal.
pub fn number_of<T: Copy>(answer: Result<T, Refusal>) -> u32
    ensures { result ≡ number_of answer }
{
    match answer {
        Ok(_) => 0,
        Err(why) => why.number(),
    }
}
