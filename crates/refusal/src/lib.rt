// The limits of the counts, and the refusals by what each says of the input or of the state.
#![tactic(auto)]

ghost use Rattle.std.specs.Prelude.{◌≡◌};
ghost use Rattle.refusal.specs.Answers.{refusal_number};

pub const MODULE_LIMIT: usize = 4096;

pub const GROUP_LIMIT: usize = 64;

pub const ENTRY_LIMIT: usize = 256;

pub const NAME_LIMIT: usize = 65535;

pub const RECORD_LIMIT: usize = 65535;

#[derive(Clone, Copy, PartialEq, Eq, Debug)]
pub enum Refusal {
    // A count is above its limit.
    Count,
    // A table's length is not the one that its counts imply.
    Length,
    // An id offset falls or passes the end, or an id is longer than its limit.
    Id,
    // Two normal included modules share a stable id.
    SameId,
    // Two normal included modules share an execution order.
    SameOrder,
    // Sizes add to more than 2^53.
    Total,
    // A dependency record or a chain of them is bad.
    Record,
    // A given limit or threshold is NaN.
    Nan,
    // A flag byte or an entry bit is out of range.
    Bit,
    // An answer or a start module is out of range.
    Number,
    // The chunk count on entry is above its limit.
    ChunkCount,
    // An output area is too short.
    Area,
    // The lent scratch is too short.
    Scratch,
    // A name isn't UTF-8.
    Utf8,
    // The group names don't strictly ascend.
    NameOrder,
    // The hash isn't eight bytes below 128.
    Hash,
}

impl Refusal {
    // The number that a call returns to a host.
    pub fn number(self) -> u32
        ensures { result ≡ refusal_number self }
    {
        match self {
            Refusal::Count => 1,
            Refusal::Length => 2,
            Refusal::Id => 3,
            Refusal::SameId => 4,
            Refusal::SameOrder => 5,
            Refusal::Total => 6,
            Refusal::Record => 7,
            Refusal::Nan => 8,
            Refusal::Bit => 9,
            Refusal::Number => 10,
            Refusal::ChunkCount => 11,
            Refusal::Area => 12,
            Refusal::Scratch => 13,
            Refusal::Utf8 => 14,
            Refusal::NameOrder => 15,
            Refusal::Hash => 16,
        }
    }
}
