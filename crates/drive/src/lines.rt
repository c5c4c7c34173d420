// A line of output: a word and numbers, one space apart, closed by one newline.

// Writes the line of a word and numbers.
pub fn write(word: &[u8], numbers: &[u64]) {
    io::write_all(1, word);
    for n in numbers {
        io::write_all(1, b" ");
        io::print_decimal(1, *n);
    }
    io::write_all(1, b"\n");
}

// Writes a line whose first number is a place, 'where not all of its numbers after the place are zero'.
pub fn write_place(word: &[u8], numbers: &[u64]) {
    if numbers.iter().skip(1).any(|n| *n != 0) {
        write(word, numbers);
    }
}
