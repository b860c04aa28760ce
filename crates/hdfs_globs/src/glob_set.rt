//! Sets of characters in a glob.

ghost use Rattle.std.specs.Prelude.{◌≡◌, ◌+◌, ◌<◌, ◌≤◌, ◌∷◌, ◌||◌, false, map, drop, length, IfOk, IfSome, None};
ghost use Rattle.std.specs.Option.{option_map};
ghost use Rattle.hdfs_globs.specs.Globs.{set_body, ranges_of, set_of, is_sign};
ghost use Rattle.hdfs_globs.specs.Patterns.{member_of, one_of};
ghost use Rattle.hdfs_globs.specs.SetSigns.{IsNextRange, asked_by, set_sign_of, shown_set};

use hdfs_wire::NoMemory;
use std::alloc::Global;

/// What one character of a text has to be.
#[derive(Drop)]
pub(crate) enum Wanted {
    Itself(char),
    Any,
    Among(Vec<(char, char)>),
    Outside(Vec<(char, char)>),
}

/// A character in a set, and whether a backslash stands before it.
#[derive(Clone, Copy)]
pub(crate) struct SetMember {
    character: char,
    escaped: bool,
}

/// What a character is in the text of a set.
pub(crate) enum SetSign {
    Character,
    Backslash,
    Ends,
    Begins,
}

/// A set's members, and how many characters they and the closing bracket take.
#[derive(Drop)]
pub(crate) struct SetText {
    members: Vec<SetMember>,
    taken: usize,
}

/// A range, and how many members it takes.
#[derive(Drop)]
pub(crate) struct NextRange {
    range: (char, char),
    taken: usize,
}

/// What a set asks of a character, and how many characters the set takes behind its opening bracket.
#[derive(Drop)]
pub(crate) struct NextSet {
    pub(crate) wanted: Wanted,
    pub(crate) taken: usize,
}

// What the character is; `escaped` says that a backslash stands before it.
fn set_sign(escaped: bool, c: char) -> SetSign
    ensures { result ≡ set_sign_of escaped c }
{
    if escaped {
        return SetSign::Character;
    }
    match c {
        '\\' => SetSign::Backslash,
        ']' => SetSign::Ends,
        '[' => SetSign::Begins,
        _ => SetSign::Character,
    }
}

// The members of the set whose text begins here.
fn set_members(alloc: Global, text: &[char]) -> Result<Option<SetText>, NoMemory>
    ensures body { IfOk result (λ o. set_body false text.now
        ≡ option_map (λ set. record { members = map member_of set.members.items; after = drop set.taken text.now }) o) }
    ensures within { IfOk result (λ o. IfSome o (λ set. set.taken ≤ length text.now)) }
{
    let mut members = Vec::new(alloc);
    let mut escaped = false;
    for (at, c) in text.iter().enumerate() {
        match set_sign(escaped, *c) {
            SetSign::Character => {
                members.push(SetMember {
                    character: *c,
                    escaped,
                })?;
                escaped = false;
            }
            SetSign::Backslash => escaped = true,
            SetSign::Ends => {
                let taken = at + 1;
                return Ok(Some(SetText { members, taken }));
            }
            SetSign::Begins => return Ok(None),
        }
    }
    Ok(None)
}

// Whether the member is an unescaped dash.
fn is_dash(member: SetMember) -> bool
    ensures { result ≡ is_sign 45 (member_of member) }
{
    member.character == '-' && !member.escaped
}

// Whether the member is an unescaped `!` or `^`.
fn is_negation(member: SetMember) -> bool
    ensures { result ≡ (is_sign 33 (member_of member) || is_sign 94 (member_of member)) }
{
    (member.character == '!' || member.character == '^') && !member.escaped
}

// The member at this place.
fn member_at(members: &[SetMember], at: usize) -> SetMember
    requires { at < length members.now }
    ensures { drop at members.now ≡ result ∷ drop (at + 1) members.now }
{
    members[at]
}

// The range between two members, unless it falls.
fn range_between(first: SetMember, last: SetMember) -> Option<NextRange>
    ensures none { result ≡ None → last.character < first.character }
    ensures some { IfSome result (λ next. (first.character ≤ last.character)
        × (next.range ≡ (first.character, last.character)) × (next.taken ≡ 3)) }
{
    if last.character < first.character {
        return None;
    }
    let range = (first.character, last.character);
    Some(NextRange { range, taken: 3 })
}

// The range of one member alone.
fn range_of_one(member: SetMember) -> NextRange
    ensures range { result.range ≡ (member.character, member.character) }
    ensures taken { result.taken ≡ 1 }
{
    let range = (member.character, member.character);
    NextRange { range, taken: 1 }
}

// The range at this place among the members, unless it falls.
fn next_range(members: &[SetMember], at: usize) -> Option<NextRange>
    requires { at < length members.now }
    ensures range { IsNextRange (map member_of (drop at members.now))
        (option_map (λ next. (next.range, map member_of (drop (at + next.taken) members.now))) result) }
    ensures within { IfSome result (λ next. (0 < next.taken) × (at + next.taken ≤ length members.now)) }
{
    let first = member_at(members, at);
    if at + 2 < members.len() {
        let dash = member_at(members, at + 1);
        if is_dash(dash) {
            let last = member_at(members, at + 2);
            return range_between(first, last);
        }
    }
    Some(range_of_one(first))
}

// The ranges of a set's members, unless one falls.
fn ranges_of(alloc: Global, members: &[SetMember]) -> Result<Option<Vec<(char, char)>>, NoMemory>
    ensures { IfOk result (λ o. ranges_of (map member_of members.now) ≡ option_map (λ v. v.items) o) }
{
    let mut ranges = Vec::new(alloc);
    let mut at = 0;
    'members: while at < members.len() {
        match next_range(members, at) {
            Some(next) => {
                ranges.push(next.range)?;
                at += next.taken;
            }
            None => return Ok(None),
        }
    }
    Ok(Some(ranges))
}

// What a set of these members asks of a character, unless it is empty or a range falls.
fn set_of(alloc: Global, members: &[SetMember]) -> Result<Option<Wanted>, NoMemory>
    ensures { IfOk result (λ o. set_of (map member_of members.now) ≡ option_map one_of o) }
{
    if members.is_empty() {
        return Ok(None);
    }
    if !is_negation(members[0]) {
        return Ok(ranges_of(alloc, members)?.map(Wanted::Among));
    }
    if members.len() == 1 {
        return Ok(None);
    }
    Ok(ranges_of(alloc, &members[1..])?.map(Wanted::Outside))
}

/// The set whose text begins here, unless it is none.
pub(crate) fn read_set(alloc: Global, text: &[char]) -> Result<Option<NextSet>, NoMemory>
    ensures set { IfOk result (λ o. asked_by (set_body false text.now) ≡ option_map (shown_set text.now) o) }
    ensures within { IfOk result (λ o. IfSome o (λ set. set.taken ≤ length text.now)) }
{
    match set_members(alloc, text)? {
        Some(set) => {
            let SetText { members, taken } = set;
            Ok(set_of(alloc, &members)?.map(|wanted| NextSet { wanted, taken }))
        }
        None => Ok(None),
    }
}
