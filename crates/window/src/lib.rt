// Windows and their moves: the splitting of report 90-127, Figure 6, for parameters and addresses alike.
#![tactic(auto)]

ghost use Rattle.std.specs.Prelude.{◌≡◌};
ghost use Rattle.window.specs.Splitting.{exponent_of, first_window, left_half, moved_right, in_window, is_power, placed, same_side};

// Which half of its parent a window is; the first window counts as right (Figure 6, line 3).
#[derive(Clone, Copy, PartialEq, Eq)]
pub enum Side {
    Left,
    Right,
}

// The numbers from start up to, but not with, start + size.
#[derive(Clone, Copy, PartialEq, Eq)]
pub struct Window {
    pub start: u64,
    pub size: u64,
    pub side: Side,
}

// 'leading zeros of the space less one give the exponent'; that of space 0 is 0.
pub fn exponent(space: u32) -> u32
    ensures { result ≡ exponent_of space }
{
    if space == 0 {
        return 0;
    }
    32 - u32::leading_zeros(space - 1)
}

// The first window of a space: start 0, its size 'rounded up to the nearest power of two', side right (Figure 6, line 3).
pub fn first_window(space: u32) -> Window
    ensures { result ≡ first_window space }
{
    let e = exponent(space);
    Window {
        start: 0,
        size: 1u64 << e,
        side: Side::Right,
    }
}

// The left half of a window, side left (Figure 6, lines 20 and 21).
pub fn left_half(w: Window) -> Window
    ensures { result ≡ left_half w }
{
    Window {
        start: w.start,
        size: w.size / 2,
        side: Side::Left,
    }
}

// The window moved right by its size, side right (Figure 6, lines 26 and 27); one that reaches the end of 64 bits stays.
pub fn move_right(w: Window) -> Window
    ensures { result ≡ moved_right w }
{
    let start = w.start;
    let size = w.size;
    if size <= u64::MAX - start {
        let next = start + size;
        return Window {
            start: next,
            size,
            side: Side::Right,
        };
    }
    w
}

// Whether a number lies in a window (Figure 6, line 6).
pub fn in_window(w: Window, n: u64) -> bool
    ensures { result ≡ in_window w n }
{
    if n < w.start {
        return false;
    }
    n - w.start < w.size
}

// 'a count of ones tests that a lent window size is a power of two'
pub fn is_power(size: u64) -> bool
    ensures { result ≡ is_power size }
{
    u64::count_ones(size) == 1
}

// Whether a lent window could have come from the first window of a space.
pub fn is_placed(w: Window, space: u32) -> bool
    ensures { result ≡ placed space w }
{
    let first = first_window(space);
    let whole = first.size;
    let start = w.start;
    let size = w.size;
    let side = w.side;
    if !is_power(size) {
        return false;
    }
    if whole < size {
        return false;
    }
    if whole <= start {
        return false;
    }
    if start % size != 0 {
        return false;
    }
    if size == whole {
        return side == Side::Right;
    }
    if start / size % 2 == 0 {
        return side != Side::Right;
    }
    side == Side::Right
}
