// Lines, words and numbers of a text that a person writes. Every exported function takes any bytes.
#![tactic(auto)]

ghost use Rattle.std.specs.Prelude.{◌≡◌, ◌+◌, ◌≤◌, length, drop};
ghost use Rattle.words.specs.Words.{blank, first_line, word_span, number_from, number_of, in_line, in_word};
ghost use Rattle.words.specs.Words.{same as same_words};
ghost use Rattle.words.specs.Parts.{in_class, bytes_in, digit_in};

// 'a number is at most 4,294,967,295'
const LARGEST: u64 = 4_294_967_295;

// Where a word begins and ends in its line.
#[derive(Clone, Copy)]
pub struct Span {
    pub from: usize,
    pub to: usize,
}

// Whether a byte parts words: a space, a tab, a carriage return.
fn is_blank(byte: u8) -> bool
    ensures { result ≡ blank byte }
{
    matches!(byte, b' ' | b'\t' | b'\r')
}

// Whether a byte goes on with a word: up to a blank or to '#', which begins a comment.
fn is_in_word(byte: u8) -> bool
    ensures { result ≡ in_word byte }
{
    !is_blank(byte) && byte != b'#'
}

// Which bytes go together: those of a line, blanks, those of a word.
#[derive(Clone, Copy)]
enum Class {
    Line,
    Blank,
    Word,
}

// Whether a byte goes with those of its class.
fn is_in(class: Class, byte: u8) -> bool
    ensures { result ≡ in_class class byte }
{
    match class {
        Class::Line => byte != b'\n',
        Class::Blank => is_blank(byte),
        Class::Word => is_in_word(byte),
    }
}

// The offset past the bytes of a class that stand from an offset on. By place: over what is left of the text, by `take_while` and `count` or by
// `position`, a word took 1.7 times as long to find, or more.
fn past(text: &[u8], at: usize, class: Class) -> usize
    ensures { result ≡ at + length (bytes_in class (drop at text.now)) }
{
    let mut end = at;
    while end < text.len() {
        if !is_in(class, text[end]) {
            return end;
        }
        end += 1;
    }
    end
}

// The offset past the line that stands from an offset on: its newline's, or the end's.
pub fn line_end(text: &[u8], at: usize) -> usize
    ensures { result ≡ at + length (first_line (drop at text.now)) }
{
    past(text, at, Class::Line)
}

// The first word from an offset of a line on; where a comment or the end comes first, it is empty.
pub fn word_at(line: &[u8], at: usize) -> Span
    ensures { result ≡ word_span line.now at }
{
    let from = past(line, at, Class::Blank);
    let to = past(line, from, Class::Word);
    Span { from, to }
}

// Whether two words are the same, byte by byte.
pub fn same(word: &[u8], other: &[u8]) -> bool
    ensures { result ≡ same_words word.now other.now }
{
    word == other
}

// The digit that a byte is: 0 to 9, then a to f or A to F.
fn digit(byte: u8) -> Option<u64>
    ensures { result ≡ digit_in byte }
{
    match byte {
        b'0'..=b'9' => Some(u64::from(byte - b'0')),
        b'a'..=b'f' => Some(u64::from(byte - b'a') + 10),
        b'A'..=b'F' => Some(u64::from(byte - b'A') + 10),
        _ => None,
    }
}

// The number that digits are, by a base.
fn digits(word: &[u8], base: u64) -> Option<u32>
    requires { base ≤ 16 }
    ensures { result ≡ number_from base 0 word.now }
{
    let mut n: u64 = 0;
    for byte in word {
        let d = digit(*byte).filter(|d| *d < base)?;
        n = n * base + d;
        if n > LARGEST {
            return None;
        }
    }
    u32::try_from(n).ok()
}

// The number that a word is: decimal, with no 0 before other digits, or hexadecimal after '0x'.
pub fn number_of(word: &[u8]) -> Option<u32>
    ensures { result ≡ number_of word.now }
{
    match word {
        [] | [b'0', b'x'] => None,
        [b'0'] => Some(0),
        [b'0', b'x', hexadecimal @ ..] => digits(hexadecimal, 16),
        [b'0', ..] => None,
        _ => digits(word, 10),
    }
}
