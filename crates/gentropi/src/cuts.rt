// Cut for a host.
ghost use Rattle.std.specs.Prelude.{◌≡◌};
ghost use Rattle.cut.specs.Call.{cut_call, chosen_of};
ghost use Rattle.gentropi.specs.After.{why_number, CutExport};

use cut::Cut;
use ids::parts::Ids;

// What stands for each answer: there is a cut, there are fewer than two modules, or no cut is allowed.
const FOUND: u8 = 0;

const FEWER_THAN_TWO: u8 = 1;

const NONE_ALLOWED: u8 = 2;

fn why_none_of(chosen: Cut) -> u8
    ensures { result ≡ why_number (chosen_of chosen) }
{
    match chosen {
        Cut::FewerThanTwo => FEWER_THAN_TWO,
        Cut::NoneAllowed => NONE_ALLOWED,
        Cut::At(_) => FOUND,
    }
}

#[unsafe(no_mangle)]
pub extern "C" fn gentropi_cut(
    n: usize,
    bytes: &[u8],
    offsets: &[u32],
    sizes: &[u64],
    minimum: f64,
    maximum: f64,
    why_none: &mut u8,
    index: &mut usize,
    left: &mut f64,
    right: &mut f64,
) -> u32
    ensures { CutExport (cut_call n bytes.now offsets.now sizes.now minimum maximum) result (record {
      why_none = why_none.old;
      index = index.old;
      left = left.old;
      right = right.old;
    }) (record {
      why_none = why_none.new;
      index = index.new;
      left = left.new;
      right = right.new;
    }) }
{
    let ids = Ids { bytes, offsets };
    let answer = cut::pick_relevance_split_index(n, &ids, sizes, minimum, maximum);
    match answer {
        Err(refusal) => refusal.number(),
        Ok(chosen) => {
            *why_none = why_none_of(chosen);
            let Cut::At(point) = chosen else {
                return 0;
            };
            *index = point.index;
            *left = point.left_size;
            *right = point.right_size;
            0
        }
    }
}
