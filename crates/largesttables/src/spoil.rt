// What is changed in a table. The last entry is taken where there is a choice.
use crate::change::Change;
use crate::tables::Tables;

impl Tables {
    pub fn spoil(&mut self, change: Change) {
        match change {
            Change::OffsetPastEnd => self.offsets[4096] = 9215,
            Change::LongId => self.offsets[1] = 1025,
            Change::SameId => self.ids.copy_within(1024..1026, 9212),
            Change::SameOrder => self.orders[4095] = self.orders[0],
            Change::GreaterTotal => self.sizes[4095] = 2199023255553,
            Change::FirstRecordPastEnd => self.first[4095] = 65536,
            Change::NextPastEnd => self.next[65535] = 65536,
            Change::DependencyPastEnd => self.dependency[65535] = 4096,
            Change::EndlessChain => self.next[65535] = 1,
            Change::ThresholdNoNumber => self.threshold[63] = f64::NAN,
            Change::FlagsOutOfRange => self.flags[4095] = 11,
            Change::AnswerPastNames => self.answers[262143] = 65537,
            _ => {}
        }
    }
}
