// Similarity of two stable ids.
#![tactic(auto)]

ghost use Rattle.std.specs.Prelude.{◌≡◌, ◌≤◌, min, length};
ghost use Rattle.refusal.specs.Answers.{outcome_of};
ghost use Rattle.similarity.specs.Similarity.{byte_score, similarity, similarity_call};

use ids::offsets::id_too_long;
use refusal::Refusal;

// What one byte pair adds to the similarity. Arithmetic alone: a sign, which takes more than 8 bits, is shifted down to a bit that chooses.
pub fn byte_score(a: u8, b: u8) -> u32
    ensures { result ≡ byte_score a b }
{
    // 1 where a is above b, else 0.
    let above = (0 - ((b as i16 - a as i16) >> 15)) as u8;
    let high = above * a + (1 - above) * b;
    let low = above * b + (1 - above) * a;
    let gap = high - low;
    // 1 where the gap is above 10, else 0: such a gap counts as 10.
    let far = (0 - ((10 - gap as i16) >> 15)) as u8;
    let counted = far * 10 + (1 - far) * gap;
    (10 - counted) as u32
}

// The similarity of two ids that are within the length limit, so that the score fits in 16 bits: narrow sums are added many at a time.
pub fn similarity_within(lhs: &[u8], rhs: &[u8]) -> u32
    requires { length lhs.now ≤ 1024 }
    ensures { result ≡ similarity lhs.now rhs.now }
{
    let end = lhs.len().min(rhs.len());
    let mut score: u16 = 0;
    for i in 0..end {
        score += byte_score(lhs[i], rhs[i]) as u16;
    }
    score as u32
}

// The public call: refuses 3, an id of more than 1,024 bytes.
pub fn stable_id_similarity(lhs: &[u8], rhs: &[u8]) -> Result<u32, Refusal>
    ensures { outcome_of result ≡ similarity_call lhs.now rhs.now }
{
    if id_too_long(lhs) || id_too_long(rhs) {
        return Err(Refusal::Id);
    }
    Ok(similarity_within(lhs, rhs))
}
