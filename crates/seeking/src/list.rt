// The list of the numbers that are still there, ascending, and a number that is taken off it with the word beside it.
ghost use Rattle.std.specs.Prelude.{◌≡◌, ◌-◌, ◌<◌, length, take};
ghost use mathlib.Core.List.{Memᴰ};
ghost use Rattle.seeking.specs.Listed.{Ascends, StandsAt, without, Removed};

// The place of a number that the list has.
pub fn place_of(list: &[u32], number: u32) -> usize
    requires { Ascends list.now × Memᴰ number list.now }
    ensures { StandsAt list.now number result }
{
    match list.binary_search(&number) {
        Ok(place) => place,
        Err(place) => place,
    }
}

// Takes what stands at a place off a list of numbers: what follows moves up by one. The last place keeps what it had. By a loop, and of each type by
// itself: `copy_within` is a `memmove`, which hosts don't supply.
fn close_numbers(list: &mut [u32], place: usize)
    requires { place < length list.old }
    ensures { take (length list.old - 1) list.new ≡ without place list.old }
{
    let last = list.len() - 1;
    let mut i = place;
    while i < last {
        list[i] = list[i + 1];
        i += 1;
    }
}

// The same for the words beside it.
fn close_words(words: &mut [u64], place: usize)
    requires { place < length words.old }
    ensures { take (length words.old - 1) words.new ≡ without place words.old }
{
    let last = words.len() - 1;
    let mut i = place;
    while i < last {
        words[i] = words[i + 1];
        i += 1;
    }
}

// Takes a number off the list, and the word beside it.
pub fn remove(list: &mut [u32], words: &mut [u64], number: u32)
    requires { Ascends list.old × Memᴰ number list.old × (length words.old ≡ length list.old) }
    ensures { Removed number list.old words.old list.new words.new }
{
    let place = place_of(list, number);
    close_numbers(list, place);
    close_words(words, place);
}
