// Bytes of text in room that is lent. Each function that writes stores its text from an offset on and hands out the offset past it; a text
// that does not fit is not stored at all, and the offset comes back as it was. Every function takes any input. `put`, `letters`, `spaces` and
// `number` are public, so that each takes the room and the offset by themselves; a `Writer` holds the two together.
#![tactic(auto)]

ghost use Rattle.std.specs.Prelude.{◌+◌, ◌<◌, ◌≡◌, [], ◌∷◌, leb, length, replicate};
ghost use Rattle.text.specs.Text.{digit as digit_of, decimal, space};
ghost use Rattle.text.specs.Room.{room_bytes, stored, past};
ghost use Rattle.text.specs.Parts.{Stores};

const ROOM_BYTES: usize = 65_536;

// Whether the room has so many bytes from an offset on.
fn has_room(at: usize, count: usize) -> bool
    ensures { result ≡ leb (at + count) room_bytes }
{
    at <= ROOM_BYTES && count <= ROOM_BYTES - at
}

// One byte.
pub fn put(room: &mut [u8; 65536], at: usize, byte: u8) -> usize
    ensures value { result ≡ past at (byte ∷ []) }
    ensures room_after { room.new ≡ stored room.old at (byte ∷ []) }
{
    if at >= ROOM_BYTES {
        return at;
    }
    room[at] = byte;
    at + 1
}

// A word.
#[tactic(auto, using(crate::proofs::Stores::stored_over))]
pub fn letters(room: &mut [u8; 65536], at: usize, word: &[u8]) -> usize
    ensures value { result ≡ past at word.now }
    ensures room_after { room.new ≡ stored room.old at word.now }
{
    if !has_room(at, word.len()) {
        return at;
    }
    let end = at + word.len();
    room[at..end].copy_from_slice(word);
    end
}

// So many spaces.
#[tactic(auto, using(crate::proofs::Stores::stored_over))]
pub fn spaces(room: &mut [u8; 65536], at: usize, count: usize) -> usize
    ensures value { result ≡ past at (replicate count space) }
    ensures room_after { room.new ≡ stored room.old at (replicate count space) }
{
    if !has_room(at, count) {
        return at;
    }
    let end = at + count;
    room[at..end].fill(b' ');
    end
}

// How many digits a number has.
#[tactic(auto, using(crate::proofs::Decimals::decimal_size, crate::proofs::Decimals::decimal_zero))]
pub fn digits_of(n: u64) -> usize
    ensures { result ≡ length (decimal n) }
{
    n.checked_ilog10().map_or(1, |power| power as usize + 1)
}

// The ASCII code of a digit.
fn digit(d: u64) -> u8
    requires { d < 10 }
    ensures { result ≡ digit_of d }
{
    48 + d as u8
}

// A number in decimal, from its last digit on: what has been stored is told by the place of the digit, which counts back.
pub fn number(room: &mut [u8; 65536], at: usize, n: u64) -> usize
    ensures value { result ≡ past at (decimal n) }
    ensures room_after { room.new ≡ stored room.old at (decimal n) }
{
    let size = digits_of(n);
    if !has_room(at, size) {
        return at;
    }
    let mut rest = n;
    for k in (0..size).rev() {
        room[at + k] = digit(rest % 10);
        rest /= 10;
    }
    at + size
}

// Text that is being stored in lent room: the room, and the offset that the next text is stored at.
#[derive(Drop)]
pub struct Writer<'a> {
    pub room: &'a mut [u8; 65536],
    pub at: usize,
}

impl<'a> Writer<'a> {
    // One byte.
    pub fn put(&mut self, byte: u8)
        ensures { Stores self.old self.new (byte ∷ []) }
    {
        self.at = put(self.room, self.at, byte);
    }

    // A word.
    pub fn letters(&mut self, word: &[u8])
        ensures { Stores self.old self.new word.now }
    {
        self.at = letters(self.room, self.at, word);
    }

    // So many spaces.
    pub fn spaces(&mut self, count: usize)
        ensures { Stores self.old self.new (replicate count space) }
    {
        self.at = spaces(self.room, self.at, count);
    }

    // A number in decimal.
    pub fn number(&mut self, n: u64)
        ensures { Stores self.old self.new (decimal n) }
    {
        self.at = number(self.room, self.at, n);
    }
}
