// cut TAG N MINIMUM MAXIMUM, then N times: ID SIZE
ghost use Rattle.std.specs.Prelude.{◌≤◌};
ghost use Rattle.std.specs.Option.{IfSome};

use cut::{Cut, CutPoint};
use ids::parts::Ids;
use textform::reading::Words;
use textform::{entries, out};
use withlines::Form;
use withlines::with::With;

// What a case hands over. The tables have entries past the last, since a line may lend more or fewer of them.
#[derive(Drop)]
struct Call<'a> {
    n: usize,
    sizes: &'a [u64],
    minimum: f64,
    maximum: f64,
    ghost within_limits: { n ≤ 4097 },
}

// The ids one after another, the offset past each, and the sizes. Answers how many bytes the ids have.
fn read_modules(
    words: &mut Words,
    ids: &mut [u8; 16384],
    offsets: &mut [u32],
    sizes: &mut [u64],
) -> Option<usize>
    ensures { IfSome result (λ n. n ≤ 16384) }
{
    let mut end = 0;
    'modules: for (offset, size) in offsets.iter_mut().zip(sizes.iter_mut()) {
        end += words.bytes(&mut ids[end..])?;
        *offset = end as u32;
        *size = words.decimal()?;
    }
    Some(end)
}

// Whether every line that spoils the call is one that it can have.
fn all_known(with: With, n: usize) -> bool
    requires { n ≤ 4097 }
{
    withlines::all_known(
        with,
        &[
            Form::length(b"offsets"),
            Form::length(b"sizes"),
            Form::count(b"n"),
            Form::unnamed(b"offsets", n + 1),
        ],
    )
}

// Runs a case, given the lines before it that spoil it. Nothing if it can't be read, or is beyond the limits.
pub fn answer(tag: &[u8], mut words: Words, with: With) -> Option<()> {
    let n = words.decimal_within(4097)? as usize;
    let minimum = words.double()?;
    let maximum = words.double()?;
    answer_tables(tag, words, with, n, minimum, maximum)
}

// The same once the words before the modules are read. The tables come first: behind a `?` they would be cleared twice.
fn answer_tables(
    tag: &[u8],
    mut words: Words,
    with: With,
    n: usize,
    minimum: f64,
    maximum: f64,
) -> Option<()>
    requires { n ≤ 4097 }
{
    let mut ids = [0u8; 16384];
    let mut offsets = [0u32; 4099];
    let mut sizes = [0u64; 4098];
    let bytes = read_modules(
        &mut words,
        &mut ids,
        &mut offsets[1..n + 1],
        &mut sizes[..n],
    )?;
    if !words.ended() || !all_known(with, n) {
        return None;
    }
    withlines::offsets::spoil(with, b"offsets", &mut offsets[..n + 1]);
    out::begin(b"cut", tag);
    let call = Call {
        n,
        sizes: &sizes,
        minimum,
        maximum,
    };
    run(with, &call, &ids[..bytes], &offsets);
    Some(())
}

// The call and its answer.
fn run(with: With, call: &Call, bytes: &[u8], offsets: &[u32]) {
    let n = call.n;
    let ids = Ids {
        bytes,
        offsets: entries::front(offsets, withlines::length(with, b"offsets", n + 1)),
    };
    let answer = cut::pick_relevance_split_index(
        withlines::count(with, b"n", n),
        &ids,
        entries::front(call.sizes, withlines::length(with, b"sizes", n)),
        call.minimum,
        call.maximum,
    );
    match answer {
        Err(refusal) => out::refused(refusal.number()),
        Ok(chosen) => show(chosen),
    }
}

fn show(chosen: Cut) {
    match chosen {
        Cut::FewerThanTwo => out::text(b" none fewer-than-two\n"),
        Cut::NoneAllowed => out::text(b" none not-allowed\n"),
        Cut::At(point) => show_point(point),
    }
}

fn show_point(point: CutPoint) {
    out::blank();
    out::number(point.index as u64);
    out::double(point.left_size);
    out::double(point.right_size);
    out::size(point.left_size);
    out::size(point.right_size);
    out::line_end();
}
