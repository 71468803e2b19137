// What is changed in the largest build, in the order of the refusals.

// A lent area.
#[derive(Clone, Copy)]
pub enum Area {
    ChunkOf,
    NextOf,
    FirstOf,
    GroupOf,
    NameOf,
    SizeOf,
    BitsOf,
    MarkOf,
    Scratch,
}

#[derive(Clone, Copy)]
pub enum Change {
    Nothing,
    ModulePastLimit,
    GroupPastLimit,
    EntryPastLimit,
    NamePastLimit,
    RecordPastLimit,
    AnswerTooFew,
    OffsetPastEnd,
    LongId,
    SameId,
    SameOrder,
    GreaterTotal,
    FirstRecordPastEnd,
    NextPastEnd,
    DependencyPastEnd,
    EndlessChain,
    ThresholdNoNumber,
    FlagsOutOfRange,
    EntriesTooFew,
    AnswerPastNames,
    ChunksPastLimit,
    Short(Area),
}

pub const ALL: [Change; 30] = [
    Change::Nothing,
    Change::ModulePastLimit,
    Change::GroupPastLimit,
    Change::EntryPastLimit,
    Change::NamePastLimit,
    Change::RecordPastLimit,
    Change::AnswerTooFew,
    Change::OffsetPastEnd,
    Change::LongId,
    Change::SameId,
    Change::SameOrder,
    Change::GreaterTotal,
    Change::FirstRecordPastEnd,
    Change::NextPastEnd,
    Change::DependencyPastEnd,
    Change::EndlessChain,
    Change::ThresholdNoNumber,
    Change::FlagsOutOfRange,
    Change::EntriesTooFew,
    Change::AnswerPastNames,
    Change::ChunksPastLimit,
    Change::Short(Area::ChunkOf),
    Change::Short(Area::NextOf),
    Change::Short(Area::FirstOf),
    Change::Short(Area::GroupOf),
    Change::Short(Area::NameOf),
    Change::Short(Area::SizeOf),
    Change::Short(Area::BitsOf),
    Change::Short(Area::MarkOf),
    Change::Short(Area::Scratch),
];

impl Area {
    fn label(self) -> &'static [u8] {
        match self {
            Area::ChunkOf => b"chunk_of one short",
            Area::NextOf => b"next_of one short",
            Area::FirstOf => b"first_of one short",
            Area::GroupOf => b"group_of one short",
            Area::NameOf => b"name_of one short",
            Area::SizeOf => b"size_of one short",
            Area::BitsOf => b"bits_of one short",
            Area::MarkOf => b"mark_of one short",
            Area::Scratch => b"scratch one short",
        }
    }
}

impl Change {
    pub fn label(self) -> &'static [u8] {
        match self {
            Change::Nothing => b"largest build",
            Change::ModulePastLimit => b"4097 modules",
            Change::GroupPastLimit => b"65 groups",
            Change::EntryPastLimit => b"257 entries",
            Change::NamePastLimit => b"65536 names",
            Change::RecordPastLimit => b"65536 records",
            Change::AnswerTooFew => b"an answer too few",
            Change::OffsetPastEnd => b"last offset past the end",
            Change::LongId => b"first id of 1025 bytes",
            Change::SameId => b"last id as the second",
            Change::SameOrder => b"last order as the first",
            Change::GreaterTotal => b"last size one more",
            Change::FirstRecordPastEnd => b"last first record past the end",
            Change::NextPastEnd => b"last next past the end",
            Change::DependencyPastEnd => b"last record's module past the end",
            Change::EndlessChain => b"chain without an end",
            Change::ThresholdNoNumber => b"last threshold not a number",
            Change::FlagsOutOfRange => b"last flags 11",
            Change::EntriesTooFew => b"255 entries",
            Change::AnswerPastNames => b"last answer past the names",
            Change::ChunksPastLimit => b"65536 chunks on entry",
            Change::Short(area) => area.label(),
        }
    }
}
