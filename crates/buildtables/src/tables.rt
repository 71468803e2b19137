// The tables of a build that was read, each as long as is said.
use buildform::Build;
use buildform::lengths::Lengths;
use buildlines::tables::{Tables, prefix};
use options::tables::Groups;
use plainsplit::{ModuleTables, ids_of};
use records::Records;

fn modules<'a>(read: &'a Tables, lengths: &Lengths) -> ModuleTables<'a> {
    ModuleTables {
        flags: prefix(&read.modules.flags, lengths.flags.entries),
        sizes: prefix(&read.modules.sizes, lengths.sizes.entries),
        orders: prefix(&read.modules.orders, lengths.orders.entries),
        shares: prefix(&read.modules.shares, lengths.shares.entries),
        tags: prefix(&read.modules.tags, lengths.tags.entries),
        bits: prefix(&read.modules.bits, lengths.bits.entries),
        ids: ids_of(
            prefix(&read.ids.bytes, read.ids.length),
            prefix(&read.modules.offsets, lengths.offsets.entries),
        ),
    }
}

fn records<'a>(read: &'a Tables, lengths: &Lengths) -> Records<'a> {
    Records {
        first: prefix(&read.modules.first, lengths.first.entries),
        dependency: prefix(&read.records.dependency, lengths.dependency.entries),
        next: prefix(&read.records.next, lengths.next.entries),
    }
}

fn groups<'a>(read: &'a Tables, lengths: &Lengths) -> Groups<'a> {
    Groups {
        given: prefix(&read.groups.given, lengths.given.entries),
        min_size: prefix(&read.groups.min_size, lengths.min_size.entries),
        max_size: prefix(&read.groups.max_size, lengths.max_size.entries),
        min_module_size: prefix(
            &read.groups.min_module_size,
            lengths.min_module_size.entries,
        ),
        max_module_size: prefix(
            &read.groups.max_module_size,
            lengths.max_module_size.entries,
        ),
        min_share_count: prefix(
            &read.groups.min_share_count,
            lengths.min_share_count.entries,
        ),
        tags: prefix(&read.groups.tags, lengths.group_tags.entries),
        priority: prefix(&read.groups.priority, lengths.priority.entries),
        threshold: prefix(&read.groups.threshold, lengths.threshold.entries),
    }
}

pub fn handed_over<'a>(build: &Build, read: &'a Tables) -> plainsplit::Build<'a> {
    plainsplit::Build {
        counts: build.counts,
        options: build.options.to_options(),
        modules: modules(read, &build.lengths),
        records: records(read, &build.lengths),
        groups: groups(read, &build.lengths),
        answers: prefix(&read.answers.numbers, build.lengths.answers.entries),
    }
}
