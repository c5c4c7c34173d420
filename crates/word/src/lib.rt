// Up to 64 stations as one word, station i in listed order at bit i: set, cleared and tested by shifts and masks, counted by a count of ones,
// the first found by trailing zeros. Every function takes any input.
#![tactic(auto)]

ghost use Rattle.std.specs.Prelude.{◌≡◌, ◌^◌, cond, ltb};
ghost use Rattle.word.specs.Word.{bits, bit_at, set_at, clear_at, count_of, lowest_of};

// How many stations a word has room for.
const BITS: usize = 64;

// The word with the bit at a place alone; no bit past the last.
fn alone(place: usize) -> u64
    ensures { result ≡ cond (ltb place bits) (2 ^ place) 0 }
{
    if BITS <= place {
        return 0;
    }
    1 << place
}

// The word with the bit at a place set.
pub fn set(word: u64, place: usize) -> u64
    ensures { result ≡ set_at word place }
{
    word | alone(place)
}

// The word with the bit at a place clear.
pub fn clear(word: u64, place: usize) -> u64
    ensures { result ≡ clear_at word place }
{
    word & !alone(place)
}

// Whether the bit at a place is set.
pub fn test(word: u64, place: usize) -> bool
    ensures { result ≡ bit_at word place }
{
    word & alone(place) != 0
}

// How many bits are set.
pub fn count(word: u64) -> u32
    ensures { result ≡ count_of word }
{
    u64::count_ones(word)
}

// The lowest place whose bit is set; 64 where none is, as trailing zeros have it and `lowest_of` says.
pub fn lowest(word: u64) -> usize
    ensures { result ≡ lowest_of word }
{
    u64::trailing_zeros(word) as usize
}
