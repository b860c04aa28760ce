//! The words of a step.

/// A step's call and its arguments. Those that it doesn't have are empty.
pub type Words<'a> = [&'a str; 8];

/// The words of a line, up to the arrow before what is wanted.
pub(crate) fn words_of(line: &str) -> Words<'_> {
    let mut words = [""; 8];
    let mut many = 0;
    for word in line.split_whitespace() {
        if word == "->" || many >= 8 {
            break;
        }
        words[many] = word;
        many += 1;
    }
    words
}

/// A number, or 0 where the word is none.
pub fn number(word: &str) -> u64 {
    word.parse::<u64>().unwrap_or(0)
}

/// A number of 32 bits, or 0 where the word is none.
pub fn small(word: &str) -> u32 {
    word.parse::<u32>().unwrap_or(0)
}

/// A number in octal digits, as permission bits are written, or 0 where the word is none.
pub fn octal(word: &str) -> u32 {
    u32::from_str_radix(word, 8).unwrap_or(0)
}

/// Whether the word is `true`.
pub fn is_true(word: &str) -> bool {
    word == "true"
}

/// Whether an answer has the wanted words, of which `_` stands for any.
pub(crate) fn is_wanted(said: &str, wanted: &str) -> bool {
    let mut words = said.split_whitespace();
    for want in wanted.split_whitespace() {
        match words.next() {
            Some(word) if want == "_" || want == word => {}
            _ => return false,
        }
    }
    words.next().is_none()
}
