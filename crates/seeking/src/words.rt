// The first words of the rows of the listed numbers, laid out in the order of the list, so that a search reads them one after the other.
ghost use Rattle.std.specs.Prelude.{◌≡◌, ◌+◌, ◌*◌, ◌-◌, ◌≤◌, ◌<◌, length, get_or};
ghost use mathlib.Core.List.{map, Memᴰ};
ghost use Rattle.lists.specs.Range.{range};
ghost use Rattle.seeking.specs.Listed.{Ascends, fewest, fewest_of_blocks, Rewritten};

use crate::list::place_of;

// Writes the first words of all rows.
pub fn fill_words(words: &mut [u64], bits: &[u64])
    requires { 4 * length words.old ≤ length bits.now }
    ensures { words.new ≡ map (λ i. get_or bits.now (4 * i) 0) (range 0 (length words.old)) }
{
    for (i, word) in words.iter_mut().enumerate() {
        *word = bits[4 * i];
    }
}

// Writes the word beside a number again, whose row has changed.
pub fn rewrite_word(words: &mut [u64], there: &[u32], bits: &[u64], number: usize)
    requires { Ascends there.now × Memᴰ number there.now × (length there.now ≤ length words.old)
        × (number < 4096) × (4 * number < length bits.now) }
    ensures { Rewritten number there.now bits.now words.old words.new }
{
    let place = place_of(there, number as u32);
    words[place] = bits[4 * number];
}

// The fewest entries that tell one of 16 words from the wanted one. All 16 are counted, with no branch on what they hold, so that several are
// counted in one step.
fn fewest_of_block(words: &[u64], from: usize, wanted: u64) -> u32
    requires { from + 16 ≤ length words.now }
    ensures { result ≡ fewest words.now wanted from 16 }
{
    let mut least = 64;
    for i in 0..16 {
        least = (wanted ^ words[from + i]).count_ones().min(least);
    }
    least
}

// Writes the fewest of each block, and answers the first block that has the fewest of all.
pub fn fill_fewest(few: &mut [u8], words: &[u64], wanted: u64) -> usize
    requires { 16 * length few.old ≤ length words.now }
    ensures { (few.new ≡ fewest_of_blocks words.now wanted (length few.old)) × (result ≤ length few.old - 1) }
{
    let mut least = 64;
    let mut first = 0;
    for (j, fewest) in few.iter_mut().enumerate() {
        let here = fewest_of_block(words, 16 * j, wanted);
        *fewest = here as u8;
        if here < least {
            least = here;
            first = j;
        }
    }
    first
}
