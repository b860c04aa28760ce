//! Globs: read once, then matched against whole texts.

ghost use Rattle.std.specs.Prelude.{◌≡◌, ◌⊎◌, ◌↔◌, ◌==◌, ◌||◌, ◌+◌, ◌<◌, ◌≤◌, ◌^◌, ◌∷◌, ℕ, List as Items, true, map, drop, length, IsTrue, IfOk, IfErr, IfSome, None};
ghost use Rattle.std.specs.Str.{chars};
ghost use Rattle.std.specs.Option.{option_map};
ghost use Rattle.hdfs_globs.specs.Globs.{signs, has_wildcard};
ghost use Rattle.hdfs_globs.specs.NextSigns.{IsNextPart, depth_behind, plain_sign};
ghost use Rattle.hdfs_globs.specs.Fits.{Matches};
ghost use Rattle.hdfs_globs.specs.Patterns.{IsPatternOf, sign_of};
ghost use Rattle.hdfs_globs.specs.Places.{run, start};

use crate::characters::{character_at, characters_of};
use crate::glob_set::{NextSet, Wanted, read_set};
use crate::places::Reached;
use hdfs_names::NamesFault;
use hdfs_wire::{NoMemory, Text};
use std::alloc::Global;

/// A part of a glob: one character, any characters, and of a group its beginning, the comma between two alternatives and its end.
#[derive(Drop)]
pub(crate) enum Part {
    One(Wanted),
    Many,
    GroupBegins,
    OrElse,
    GroupEnds,
}

/// A part, and how many characters it is written with.
#[derive(Drop)]
pub(crate) struct NextPart {
    part: Part,
    taken: usize,
}

/// A glob that was read.
#[derive(Drop)]
pub struct GlobPattern {
    parts: Vec<Part>,
    wildcard: bool,
}

impl GlobPattern {
    /// Reads a glob. Of its characters `?` is any one, `*` any number of any, `[abc]` and `[a-z]` one of a set and `[!abc]` or `[^abc]` one
    /// outside of it, and `{a,b}` one of the alternatives, which are globs too. A backslash makes the character after it stand for itself,
    /// in a set too; every other character does so unasked. A dash at the beginning or the end of a set is a member.
    ///
    /// `InvalidPath`, with the given glob: an unescaped backslash ends it, a set or a group isn't closed, a `[` stands unescaped in a set,
    /// a set is empty, or a range falls. `NoMemory`: there was none.
    pub fn new(alloc: Global, glob: &str) -> Result<GlobPattern, NamesFault>
        ensures ok { IfOk result (IsPatternOf (chars glob.now)) }
        ensures refused { IfErr result (λ e. (e ≡ NamesFault.NoMemory)
            ⊎ ((e ≡ NamesFault.InvalidPath glob.now) × (signs (chars glob.now) ≡ None))) }
    {
        let text = characters_of(alloc, glob)?;
        match read_parts(alloc, &text)? {
            Some(parts) => {
                let wildcard = finds_wildcard(&text);
                Ok(GlobPattern { parts, wildcard })
            }
            None => Err(NamesFault::InvalidPath(Text::from_str(alloc, glob)?)),
        }
    }

    /// Whether the glob matches the whole text. The work is at most the glob's length times the text's.
    ///
    /// `NoMemory`: there was none.
    pub fn matches(&self, alloc: Global, s: &str) -> Result<bool, NoMemory>
        ensures { (glob : Items ℕ) → IsPatternOf glob self.now → IfOk result (λ b. IsTrue b ↔ Matches glob (chars s.now)) }
    {
        let text = characters_of(alloc, s)?;
        Ok(passes(alloc, &self.parts, &text)?)
    }

    /// Whether an unescaped `*`, `?`, `{` or `[` stands in the glob.
    pub fn has_wildcard(&self) -> bool
        ensures { (glob : Items ℕ) → IsPatternOf glob self.now → IsTrue result ↔ (has_wildcard glob ≡ true) }
    {
        self.wildcard
    }
}

// Whether the whole text can be passed by all parts.
fn passes(alloc: Global, parts: &[Part], text: &[char]) -> Result<bool, NoMemory>
    ensures { IfOk result (λ b. b ≡ (run text.now (map sign_of parts.now) start).places (length text.now)) }
{
    let mut reached = Reached::new(alloc, text.len())?;
    for part in parts {
        reached.pass(alloc, part, text)?;
    }
    Ok(reached.is_at(text.len()))
}

// Whether an unescaped wildcard stands in the text.
fn finds_wildcard(text: &[char]) -> bool
    ensures { result ≡ has_wildcard text.now }
{
    let mut escaped = false;
    for c in text {
        if escaped {
            escaped = false;
        } else if is_wildcard(*c) {
            return true;
        } else {
            escaped = *c == '\\';
        }
    }
    false
}

// Whether the character is a wildcard, or begins a group or a set.
fn is_wildcard(c: char) -> bool
    ensures { result ≡ ((c == 42) || (c == 63) || (c == 123) || (c == 91)) }
{
    matches!(c, '*' | '?' | '{' | '[')
}

// The part of a character that is neither a backslash nor an opening bracket.
fn plain_part(c: char, depth: usize) -> Part
    ensures { sign_of result ≡ plain_sign depth c }
{
    match c {
        '*' => Part::Many,
        '?' => Part::One(Wanted::Any),
        '{' => Part::GroupBegins,
        '}' if depth > 0 => Part::GroupEnds,
        ',' if depth > 0 => Part::OrElse,
        _ => Part::One(Wanted::Itself(c)),
    }
}

// How many groups are open behind the part.
fn depth_behind(part: &Part, depth: usize) -> usize
    requires { depth + 1 < 2 ^ 64 }
    ensures depth { result ≡ depth_behind (sign_of part.now) depth }
    ensures bound { result ≤ depth + 1 }
{
    match part {
        Part::GroupBegins => depth + 1,
        Part::GroupEnds => depth.saturating_sub(1),
        _ => depth,
    }
}

// The part that is written at this place.
fn next_part(
    alloc: Global,
    text: &[char],
    at: usize,
    depth: usize,
) -> Result<Option<NextPart>, NoMemory>
    requires { at < length text.now }
    ensures part { IfOk result (IsNextPart depth (drop at text.now)) }
    ensures within { IfOk result (λ o. IfSome o (λ next. (0 < next.taken) × (at + next.taken ≤ length text.now))) }
{
    let c = character_at(text, at);
    if c == '\\' {
        return Ok(escaped_part(text, at));
    }
    if c == '[' {
        return Ok(set_part(alloc, text, at)?);
    }
    let part = plain_part(c, depth);
    Ok(Some(NextPart { part, taken: 1 }))
}

// The part of the backslash at this place and of the character behind it, unless the backslash ends the text.
fn escaped_part(text: &[char], at: usize) -> Option<NextPart>
    requires inside { at < length text.now }
    requires backslash { drop at text.now ≡ 92 ∷ drop (at + 1) text.now }
    ensures part { (depth : ℕ) → IsNextPart depth (drop at text.now) result }
    ensures within { IfSome result (λ next. (0 < next.taken) × (at + next.taken ≤ length text.now)) }
{
    if at + 1 == text.len() {
        return None;
    }
    let c = character_at(text, at + 1);
    let part = Part::One(Wanted::Itself(c));
    Some(NextPart { part, taken: 2 })
}

// The part of the set whose opening bracket stands at this place, unless it is none.
fn set_part(alloc: Global, text: &[char], at: usize) -> Result<Option<NextPart>, NoMemory>
    requires inside { at < length text.now }
    requires bracket { drop at text.now ≡ 91 ∷ drop (at + 1) text.now }
    ensures part { IfOk result (λ o. (depth : ℕ) → IsNextPart depth (drop at text.now) o) }
    ensures within { IfOk result (λ o. IfSome o (λ next. (0 < next.taken) × (at + next.taken ≤ length text.now))) }
{
    match read_set(alloc, &text[at + 1..])? {
        Some(set) => {
            let NextSet { wanted, taken } = set;
            let part = Part::One(wanted);
            let taken = taken + 1;
            Ok(Some(NextPart { part, taken }))
        }
        None => Ok(None),
    }
}

// The parts of a whole glob.
fn read_parts(alloc: Global, text: &[char]) -> Result<Option<Vec<Part>>, NoMemory>
    ensures { IfOk result (λ o. signs text.now ≡ option_map (λ parts. map sign_of parts.items) o) }
{
    let mut parts = Vec::new(alloc);
    let mut depth = 0;
    let mut at = 0;
    'parts: while at < text.len() {
        match next_part(alloc, text, at, depth)? {
            Some(next) => {
                let NextPart { part, taken } = next;
                depth = depth_behind(&part, depth);
                at += taken;
                parts.push(part)?;
            }
            None => return Ok(None),
        }
    }
    if depth > 0 {
        return Ok(None);
    }
    Ok(Some(parts))
}
