//! Texts that wait to be opened.

ghost use Rattle.std.specs.Prelude.{◌≡◌, ◌≤◌, ◌++◌, length, IfOk};

use hdfs_wire::NoMemory;
use std::alloc::Global;

/// A text, and the place from which it is to be opened.
#[derive(Drop)]
pub(crate) struct Work {
    pub(crate) text: Vec<char>,
    pub(crate) from: usize,
    ghost within: { from ≤ length text.items },
}

impl Work {
    /// The whole pattern.
    pub(crate) fn of_pattern(text: Vec<char>) -> Work
        ensures text { result.text ≡ text }
        ensures from { result.from ≡ 0 }
    {
        let from = 0;
        Work { text, from }
    }

    /// The alternative between the two texts, to be opened from its beginning on.
    pub(crate) fn of_alternative(
        alloc: Global,
        front: &[char],
        alternative: &[char],
        back: &[char],
    ) -> Result<Work, NoMemory>
        ensures text { IfOk result (λ work. work.text.items ≡ front.now ++ (alternative.now ++ back.now)) }
        ensures from { IfOk result (λ work. work.from ≡ length front.now) }
    {
        let mut text = Vec::from_slice(alloc, front)?;
        text.extend_from_slice(alternative)?;
        text.extend_from_slice(back)?;
        let from = front.len();
        Ok(Work { text, from })
    }
}
