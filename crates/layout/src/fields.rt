// The words and numbers of a line after its first.
ghost use Rattle.std.specs.Prelude.{ℕ, ◌≤◌, ◌≡◌, List, ◌∷◌, map, length};
ghost use Rattle.words.specs.Words.{first_word, after_word};
ghost use Rattle.layout.specs.Layout.{wordless, fields_in};
ghost use Rattle.layout.specs.Faults.{label_number};
ghost use Rattle.layout.specs.Parts.{field_said, FieldsSaid};

use crate::faults::Fault;
use crate::labels::Label;

// The first word of what is left of a line, and what is left after it.
pub fn parted(line: &[u8]) -> (&[u8], &[u8])
    ensures word { result.0.now ≡ first_word line.now }
    ensures after { result.1.now ≡ after_word line.now }
{
    let word = words::word_at(line, 0);
    (&line[word.from..word.to], &line[word.to..])
}

// Whether what is left of a line has no word.
fn is_wordless(line: &[u8]) -> bool
    ensures { result ≡ wordless line.now }
{
    let (word, _) = parted(line);
    words::same(word, b"")
}

// A word and its number: the number, and what is left of the line after it.
fn field_in(line: &[u8], label: Label) -> Result<(u32, &[u8]), Fault>
    ensures { (later : List ℕ) → fields_in (label_number label ∷ later) line.now ≡ field_said result later }
{
    let (word, after) = parted(line);
    if !words::same(word, label.letters()) {
        return Err(Fault::WordMissing(label));
    }
    let (digits, rest) = parted(after);
    match words::number_of(digits) {
        Some(number) => Ok((number, rest)),
        None => Err(Fault::NumberMissing(label)),
    }
}

// The numbers after these words of a line, up to its end, in the order of the words, and zeros past them.
pub fn fields_in(line: &[u8], labels: &[Label]) -> Result<[u32; 6], Fault>
    requires { length labels.now ≤ 6 }
    ensures { FieldsSaid result (fields_in (map label_number labels.now) line.now) }
{
    let mut values = [0; 6];
    let mut rest = line;
    for (i, label) in labels.iter().enumerate() {
        (values[i], rest) = field_in(rest, *label)?;
    }
    if is_wordless(rest) {
        Ok(values)
    } else {
        Err(Fault::GoesOn)
    }
}
