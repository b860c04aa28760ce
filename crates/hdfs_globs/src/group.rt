//! Brace groups: their alternatives, and whether a slash stands inside.

ghost use Rattle.std.specs.Prelude.{◌≡◌, ◌+◌, ◌<◌, ◌≤◌, ◌^◌, ℕ, List as Items, [], ◌∷◌, ◌++◌, OnOk, Option, drop, length, IfOk, IfSome, Some, None, false};
ghost use Rattle.std.specs.Option.{option_map};
ghost use Rattle.hdfs_globs.specs.Expansions.{Group as SpecGroup, group_at};
ghost use Rattle.hdfs_globs.specs.GroupScans.{IsPassed, Scanned, group_sign_of, shown_group, shown_texts};

use crate::characters::character_at;
use hdfs_wire::NoMemory;
use std::alloc::Global;
use std::mem;

/// What a character is in the text of a group.
#[derive(Drop)]
pub(crate) enum GroupSign {
    Character,
    Backslash,
    Opens,
    Closes,
    Ends,
    Comma,
    Slash,
}

/// A group: its alternatives without their backslashes, whether an unescaped slash stands inside, and the place behind its closing brace.
#[derive(Drop)]
pub(crate) struct GroupText {
    pub(crate) alternatives: Vec<Vec<char>>,
    pub(crate) slash: bool,
    pub(crate) after: usize,
}

/// A group that is read: the alternatives before this one, this one so far, whether a slash came, how many groups are open inside, and
/// whether a backslash came last.
#[derive(Drop)]
pub(crate) struct Scan {
    alternatives: Vec<Vec<char>>,
    current: Vec<char>,
    slash: bool,
    depth: usize,
    escaped: bool,
}

// What the character is; `escaped` says that a backslash stands before it, and so many groups are open inside.
fn group_sign(escaped: bool, depth: usize, c: char) -> GroupSign
    ensures { result ≡ group_sign_of escaped depth c }
{
    if escaped {
        return GroupSign::Character;
    }
    match c {
        '\\' => GroupSign::Backslash,
        '{' => GroupSign::Opens,
        '}' if depth == 0 => GroupSign::Ends,
        '}' => GroupSign::Closes,
        ',' if depth == 0 => GroupSign::Comma,
        '/' => GroupSign::Slash,
        _ => GroupSign::Character,
    }
}

impl Scan {
    // Nothing of a group.
    fn new(alloc: Global) -> Scan
        ensures begins { (whole : Option SpecGroup) (text : Items ℕ) → whole ≡ group_at false 0 text → Scanned whole result text }
        ensures depth { result.depth ≡ 0 }
    {
        Scan {
            alternatives: Vec::new(alloc),
            current: Vec::new(alloc),
            slash: false,
            depth: 0,
            escaped: false,
        }
    }

    // Goes past the character, and answers whether the group ends with it.
    fn pass(&mut self, alloc: Global, c: char) -> Result<bool, NoMemory>
        requires { self.old.depth + 1 < 2 ^ 64 }
        ensures passed { IfOk result (λ ended. (whole : Option SpecGroup) (text : Items ℕ)
            → Scanned whole self.old (c ∷ text) → IsPassed whole ended self.new text) }
        ensures depth { IfOk result (λ ended. self.new.depth ≤ self.old.depth + 1) }
    {
        match group_sign(self.escaped, self.depth, c) {
            GroupSign::Character => {
                self.current.push(c)?;
                self.escaped = false;
                Ok(false)
            }
            GroupSign::Backslash => {
                self.escaped = true;
                Ok(false)
            }
            GroupSign::Opens => {
                self.current.push(c)?;
                self.depth += 1;
                Ok(false)
            }
            GroupSign::Closes => {
                self.current.push(c)?;
                self.depth = self.depth.saturating_sub(1);
                Ok(false)
            }
            GroupSign::Slash => {
                self.current.push(c)?;
                self.slash = true;
                Ok(false)
            }
            GroupSign::Comma => {
                self.end_alternative(alloc)?;
                Ok(false)
            }
            GroupSign::Ends => {
                self.end_alternative(alloc)?;
                Ok(true)
            }
        }
    }

    // The group that ends before this place.
    fn into_group(self, after: usize) -> GroupText
        ensures alternatives { result.alternatives ≡ self.alternatives }
        ensures slash { result.slash ≡ self.slash }
        ensures after { result.after ≡ after }
    {
        let Scan {
            alternatives,
            slash,
            ..
        } = self;
        GroupText {
            alternatives,
            slash,
            after,
        }
    }

    // Ends the alternative at hand, and begins the next.
    fn end_alternative(&mut self, alloc: Global) -> Result<(), NoMemory>
        ensures alternatives { OnOk result (shown_texts self.new.alternatives
            ≡ shown_texts self.old.alternatives ++ self.old.current.items ∷ []) }
        ensures current { OnOk result (self.new.current.items ≡ []) }
        ensures slash { self.new.slash ≡ self.old.slash }
        ensures depth { self.new.depth ≡ self.old.depth }
        ensures escaped { self.new.escaped ≡ self.old.escaped }
    {
        let ended = mem::replace(&mut self.current, Vec::new(alloc));
        Ok(self.alternatives.push(ended)?)
    }
}

/// The group whose text begins at this place, unless its closing brace is missing.
pub(crate) fn read_group(
    alloc: Global,
    text: &[char],
    from: usize,
) -> Result<Option<GroupText>, NoMemory>
    requires { from ≤ length text.now }
    ensures group { IfOk result (λ o. group_at false 0 (drop from text.now) ≡ option_map (shown_group text.now) o) }
    ensures within { IfOk result (λ o. IfSome o (λ g. g.after ≤ length text.now)) }
{
    let mut scan = Scan::new(alloc);
    for at in from..text.len() {
        let c = character_at(text, at);
        if scan.pass(alloc, c)? {
            return Ok(Some(scan.into_group(at + 1)));
        }
    }
    Ok(None)
}
