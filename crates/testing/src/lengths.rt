// The lengths of the tables, for condition 2.
ghost use Rattle.std.specs.Prelude.{◌≡◌, length};

use conditions::{GroupLengths, ModuleLengths, RecordLengths};
use options::tables::Groups;
use records::Records;

// Of the tables by module.
pub fn module_lengths(
    flags: &[u8],
    sizes: &[u64],
    orders: &[u32],
    shares: &[u32],
    tags: &[u64],
    bits: &[u64],
) -> ModuleLengths
    ensures { result ≡ record {
      flags = length flags.now;
      sizes = length sizes.now;
      orders = length orders.now;
      shares = length shares.now;
      tags = length tags.now;
      bits = length bits.now;
    } }
{
    ModuleLengths {
        flags: flags.len(),
        sizes: sizes.len(),
        orders: orders.len(),
        shares: shares.len(),
        tags: tags.len(),
        bits: bits.len(),
    }
}

// Of the id offsets and of the tables of dependency records.
pub fn record_lengths(offsets: &[u32], records: &Records) -> RecordLengths
    ensures { result ≡ record {
      offsets = length offsets.now;
      first = length records.now.first.now;
      dependency = length records.now.dependency.now;
      next = length records.now.next.now;
    } }
{
    RecordLengths {
        offsets: offsets.len(),
        first: records.first.len(),
        dependency: records.dependency.len(),
        next: records.next.len(),
    }
}

// Of the tables by group.
pub fn group_lengths(groups: &Groups) -> GroupLengths
    ensures { result ≡ record {
      given = length groups.now.given.now;
      min_size = length groups.now.min_size.now;
      max_size = length groups.now.max_size.now;
      min_module_size = length groups.now.min_module_size.now;
      max_module_size = length groups.now.max_module_size.now;
      min_share_count = length groups.now.min_share_count.now;
      tags = length groups.now.tags.now;
      priority = length groups.now.priority.now;
      threshold = length groups.now.threshold.now;
    } }
{
    GroupLengths {
        given: groups.given.len(),
        min_size: groups.min_size.len(),
        max_size: groups.max_size.len(),
        min_module_size: groups.min_module_size.len(),
        max_module_size: groups.max_module_size.len(),
        min_share_count: groups.min_share_count.len(),
        tags: groups.tags.len(),
        priority: groups.priority.len(),
        threshold: groups.threshold.len(),
    }
}
