// One u64 word by shifts and masks.
ghost use Rattle.std.specs.Prelude.{◌≡◌, ◌<◌};
ghost use Rattle.bitset.specs.Word.{bit, contains, any_from};

// Whether bit k of a word is set.
pub fn test_bit(word: u64, k: usize) -> bool
    requires { k < 64 }
    ensures { result ≡ bit word k }
{
    (word >> k) & 1 == 1
}

// Whether a word has each bit that the mask has.
pub fn contains_all(word: u64, mask: u64) -> bool
    ensures { result ≡ contains word mask }
{
    word & mask == mask
}

// Whether a word whose lowest bit is number `base` has a bit of number `from` or above.
pub fn any_from(word: u64, base: usize, from: usize) -> bool
    ensures { result ≡ any_from word base from }
{
    if from <= base {
        return word != 0;
    }
    let low = from - base;
    low < 64 && word >> low != 0
}
