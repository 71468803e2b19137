// Ranks of the modules among their ids, and refusal 4.
ghost use Rattle.std.specs.Prelude.{◌≡◌, ◌+◌, ◌<◌, length};
ghost use Rattle.orders.specs.ById.{Named};
ghost use Rattle.ranks.specs.ById.{tied_at, neighbours_tie, Rankable, Ranks, HasRanks, RankArea, RankedById};

use idbytes::shared::same_id;
use ids::parts::Ids;
use idsort::rounds::sort_by_id;
use index::ModuleIdx;

// Whether the modules at i and i + 1 of a list have the same id.
fn tied_at(ids: &Ids, list: &[u32], i: usize) -> bool
    requires { Named ids.now.bytes.now ids.now.offsets.now list.now × (i + 1 < length list.now) }
    ensures { result ≡ tied_at ids.now.bytes.now ids.now.offsets.now list.now i }
{
    let lhs = ids.id_at(ModuleIdx(list[i]));
    let rhs = ids.id_at(ModuleIdx(list[i + 1]));
    same_id(lhs, rhs)
}

// Whether two neighbours of a list have the same id. In id order there are such neighbours exactly where two modules share an id.
pub fn shares_id(ids: &Ids, list: &[u32]) -> bool
    requires { Named ids.now.bytes.now ids.now.offsets.now list.now }
    ensures { result ≡ neighbours_tie ids.now.bytes.now ids.now.offsets.now list.now }
{
    for i in 1..list.len() {
        if tied_at(ids, list, i - 1) {
            return true;
        }
    }
    false
}

// Writes for each module of the list where it stands there.
pub fn fill_rank(list: &[u32], rank: &mut [u32])
    requires { HasRanks list.now rank.old }
    ensures { Ranks list.now rank.old rank.new }
{
    for (i, m) in list.iter().enumerate() {
        rank[*m as usize] = i as u32;
    }
}

// Puts the modules in id order, over an area that is as long, and ranks them, unless two of them share an id.
fn rank_over(ids: &Ids, list: &mut [u32], rank: &mut [u32], spare: &mut [u32]) -> bool
    requires { RankArea ids.now.bytes.now ids.now.offsets.now list.old rank.old spare.old }
    ensures { RankedById ids.now.bytes.now ids.now.offsets.now list.old result rank.old rank.new }
{
    sort_by_id(ids, list, spare);
    if shares_id(ids, list) {
        return true;
    }
    fill_rank(list, rank);
    false
}

// The same, with an area of its own. Few modules get a short one, which costs less.
pub fn rank_by_id(ids: &Ids, list: &mut [u32], rank: &mut [u32]) -> bool
    requires { Rankable ids.now.bytes.now ids.now.offsets.now list.old rank.old }
    ensures { RankedById ids.now.bytes.now ids.now.offsets.now list.old result rank.old rank.new }
{
    let n = list.len();
    if n <= 1024 {
        let mut spare = [0u32; 1024];
        return rank_over(ids, list, rank, &mut spare[..n]);
    }
    let mut spare = [0u32; 4096];
    rank_over(ids, list, rank, &mut spare[..n])
}
