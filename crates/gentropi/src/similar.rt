// Similarity for a host.
ghost use Rattle.std.specs.Prelude.{◌≡◌};
ghost use Rattle.refusal.specs.Outcome.{number_of, value_or};
ghost use Rattle.similarity.specs.Similarity.{similarity_call};

#[unsafe(no_mangle)]
pub extern "C" fn gentropi_similarity(lhs: &[u8], rhs: &[u8], score: &mut u32) -> u32
    ensures { (result ≡ number_of (similarity_call lhs.now rhs.now))
        × (score.new ≡ value_or (similarity_call lhs.now rhs.now) score.old) }
{
    let answer = similarity::stable_id_similarity(lhs, rhs);
    match answer {
        Err(refusal) => refusal.number(),
        Ok(value) => {
            *score = value;
            0
        }
    }
}
