// filter TAG MASK MIN_MODULE_SIZE MAX_MODULE_SIZE MIN_SHARE_COUNT TAGS SIZE SHARE_COUNT
use filter::StaticFilter;
use textform::reading::Words;
use textform::{out, values};

// A share count is a number, or `-` where it is absent.
fn share_count(word: &[u8]) -> Option<Option<u32>> {
    match word {
        b"-" => Some(None),
        _ => {
            let given = u32::try_from(values::decimal(word)?).ok()?;
            Some(Some(given))
        }
    }
}

pub fn answer(tag: &[u8], mut words: Words) -> Option<()> {
    let filter = StaticFilter {
        tags: words.hexadecimal()?,
        min_module_size: words.limit()?,
        max_module_size: words.limit()?,
        min_share_count: share_count(words.next()?)?,
    };
    let tags = words.hexadecimal()?;
    let size = words.decimal()?;
    let shares = words.short()?;
    if !words.ended() {
        return None;
    }
    out::begin(b"filter", tag);
    run(filter, tags, size, shares);
    Some(())
}

// The call and its answer.
fn run(filter: StaticFilter, tags: u64, size: u64, shares: u32) {
    match filter::passes_static_filters(filter, tags, size, shares) {
        Err(refusal) => out::refused(refusal.number()),
        Ok(true) => out::text(b" 1\n"),
        Ok(false) => out::text(b" 0\n"),
    }
}
