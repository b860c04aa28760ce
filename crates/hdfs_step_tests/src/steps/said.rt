//! What a step answers.
use std::alloc::Global;

/// What a step answers, in words. A word for which there is no memory is left out.
#[derive(Drop)]
pub struct Said {
    text: String,
}

impl Said {
    pub(crate) fn new(alloc: Global) -> Said {
        Said {
            text: String::new(alloc),
        }
    }

    pub(crate) fn as_str(&self) -> &str {
        self.text.as_str()
    }

    /// One more word, or several.
    pub fn word(&mut self, word: &str) {
        let _ = self.text.push_str(" ");
        let _ = self.text.push_str(word);
    }

    /// The call fails, in these words.
    pub fn fails(&mut self, how: &str) {
        self.word("fails");
        self.word(how);
    }

    pub fn number(&mut self, number: u64) {
        let _ = write!(self.text, " {number}");
    }

    /// A number with its sign.
    pub fn signed(&mut self, number: i64) {
        let _ = write!(self.text, " {number}");
    }

    /// A number in octal digits.
    pub fn octal(&mut self, number: u32) {
        let _ = write!(self.text, " {number:o}");
    }

    pub fn truth(&mut self, truth: bool) {
        self.word(if truth { "true" } else { "false" });
    }

    /// Numbers one behind another, or that there is none.
    pub fn numbers(&mut self, numbers: &[u64]) {
        if numbers.is_empty() {
            self.word("none");
        }
        for number in numbers {
            self.number(*number);
        }
    }

    /// Bytes as numbers, or that there is none.
    pub fn bytes(&mut self, bytes: &[u8]) {
        if bytes.is_empty() {
            self.word("none");
        }
        for byte in bytes {
            self.number(u64::from(*byte));
        }
    }
}
