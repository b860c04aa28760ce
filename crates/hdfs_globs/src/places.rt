//! The places of a text at which the parts of a glob that were read so far can end.

ghost use Rattle.std.specs.Prelude.{◌≡◌, ◌+◌, ◌<◌, ◌≤◌, ℕ, false, [], replicate, IfOk, OnOk};
ghost use Rattle.hdfs_globs.specs.Globs.Sign.{group_begins};
ghost use Rattle.hdfs_globs.specs.Patterns.{one_of, sign_of};
ghost use Rattle.hdfs_globs.specs.Places.{Marks, Places, StandsAs, State, at_end, at_or, either_of, filled, is_one, is_within, shifted, start, step};

use crate::glob::Part;
use crate::glob_set::Wanted;
use hdfs_wire::NoMemory;
use std::alloc::Global;

/// A group that is open: a mark for each place at its beginning, and for each at which an alternative read so far ended.
#[derive(Drop)]
pub(crate) struct Group {
    begun: Vec<bool>,
    ended: Vec<bool>,
}

/// A mark for each place at which the parts read so far can end, and the groups that are open, the innermost last.
#[derive(Drop)]
pub(crate) struct Reached {
    places: Vec<bool>,
    groups: Vec<Group>,
}

// Whether the character lies in one of the ranges.
fn is_within(ranges: &[(char, char)], c: char) -> bool
    ensures { result ≡ is_within ranges.now c }
{
    for range in ranges {
        if range.0 <= c && c <= range.1 {
            return true;
        }
    }
    false
}

// Whether the character is what is wanted.
fn is_wanted(wanted: &Wanted, c: char) -> bool
    ensures { result ≡ is_one (one_of wanted.now) c }
{
    match wanted {
        Wanted::Itself(itself) => c == *itself,
        Wanted::Any => true,
        Wanted::Among(ranges) => is_within(ranges, c),
        Wanted::Outside(ranges) => !is_within(ranges, c),
    }
}

// Whether this place is marked, and a character that is wanted stands behind it.
fn goes_on(here: bool, wanted: &Wanted, text: &[char], at: usize) -> bool
    ensures { (p : Places) → here ≡ p at → result ≡ shifted (one_of wanted.now) text.now p (at + 1) }
{
    here && at < text.len() && is_wanted(wanted, text[at])
}

// Goes from each place past a character that is wanted.
fn shift(places: &mut [bool], wanted: &Wanted, text: &[char])
    ensures { (n : ℕ) (p : Places) → Marks n places.old p → Marks n places.new (shifted (one_of wanted.now) text.now p) }
{
    let mut came = false;
    for at in 0..places.len() {
        let here = places[at];
        places[at] = came;
        came = goes_on(here, wanted, text, at);
    }
}

// Goes from each place past any characters.
fn fill(places: &mut [bool])
    ensures { (n : ℕ) (p : Places) → Marks n places.old p → Marks n places.new (filled p) }
{
    let mut seen = false;
    for at in 0..places.len() {
        seen = seen || places[at];
        places[at] = seen;
    }
}

// Adds the places.
fn join(ended: &mut [bool], places: &[bool])
    ensures { (n : ℕ) (p q : Places) → Marks n ended.old p → Marks n places.now q → Marks n ended.new (either_of p q) }
{
    for at in 0..ended.len() {
        let came = at < places.len() && places[at];
        ended[at] = ended[at] || came;
    }
}

// No mark at any of so many places.
fn no_marks(alloc: Global, count: usize) -> Result<Vec<bool>, NoMemory>
    ensures { IfOk result (λ v. v.items ≡ replicate count false) }
{
    Ok(vec![in alloc; false; count]?)
}

// The same marks in memory of their own.
fn copy_of(alloc: Global, marks: &[bool]) -> Result<Vec<bool>, NoMemory>
    ensures { IfOk result (λ v. v.items ≡ marks.now) }
{
    Ok(Vec::from_slice(alloc, marks)?)
}

impl Reached {
    /// Before the first part, in a text of so many characters.
    pub(crate) fn new(alloc: Global, count: usize) -> Result<Reached, NoMemory>
        ensures { IfOk result (λ r. StandsAs count r start) }
    {
        let mut places = Vec::new(alloc);
        places.push(true)?;
        for _ in 0..count {
            places.push(false)?;
        }
        let groups = Vec::new(alloc);
        Ok(Reached { places, groups })
    }

    /// Whether the parts read so far can end at this place.
    pub(crate) fn is_at(&self, place: usize) -> bool
        ensures { (n : ℕ) (s : State) → place ≤ n → StandsAs n self.now s → result ≡ s.places place }
    {
        place < self.places.len() && self.places[place]
    }

    /// Goes past this part.
    pub(crate) fn pass(&mut self, alloc: Global, part: &Part, text: &[char]) -> Result<(), NoMemory>
        ensures { OnOk result ((n : ℕ) (s : State)
            → StandsAs n self.old s → StandsAs n self.new (step text.now (sign_of part.now) s)) }
    {
        match part {
            Part::One(wanted) => shift(&mut self.places, wanted, text),
            Part::Many => fill(&mut self.places),
            Part::GroupBegins => self.begin_group(alloc)?,
            Part::OrElse => self.begin_alternative(alloc)?,
            Part::GroupEnds => self.end_group(),
        }
        Ok(())
    }

    // Opens a group.
    fn begin_group(&mut self, alloc: Global) -> Result<(), NoMemory>
        ensures { OnOk result ((n : ℕ) (s : State) → StandsAs n self.old s → StandsAs n self.new (step [] group_begins s)) }
    {
        let begun = copy_of(alloc, &self.places)?;
        let ended = no_marks(alloc, self.places.len())?;
        Ok(self.groups.push(Group { begun, ended })?)
    }

    // Ends an alternative of the innermost group, and goes back to where that group began.
    fn begin_alternative(&mut self, alloc: Global) -> Result<(), NoMemory>
        ensures { OnOk result ((n : ℕ) (s : State) → StandsAs n self.old s → StandsAs n self.new (at_or s.places s.groups)) }
    {
        match self.groups.pop() {
            Some(mut group) => {
                join(&mut group.ended, &self.places);
                self.places = copy_of(alloc, &group.begun)?;
                Ok(self.groups.push(group)?)
            }
            None => Ok(()),
        }
    }

    // Ends the innermost group: any of its alternatives has ended.
    fn end_group(&mut self)
        ensures { (n : ℕ) (s : State) → StandsAs n self.old s → StandsAs n self.new (at_end s.places s.groups) }
    {
        if let Some(mut group) = self.groups.pop() {
            join(&mut group.ended, &self.places);
            self.places = group.ended;
        }
    }
}
