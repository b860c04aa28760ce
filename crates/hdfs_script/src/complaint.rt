//! Why a script is refused at its first bad line: by its words, as `reading` says, by its place, or by the store's rules. The script
//! is read once more for this.
use crate::entry::{Entry, Place, Setting};
use crate::line::{entry, reading};
use crate::marks::marked;
use crate::parsing::{FIRST_PLACE, SCRIPT_LIMIT, may_stand, place_behind};
use crate::words::is_ascii;
use crate::wrong::{Why, Wrong};
use hdfs_cluster::{Attributes, Line, is_block_size, is_permission, is_replication};
use hdfs_names::is_path;
use hdfs_wire::Text;
use std::alloc::Global;
use std::error::Error;
use std::fmt;

/// Why a script is refused, and at which line, counted from 1.
#[derive(Debug, Drop)]
pub struct Complaint {
    pub number: u64,
    pub why: Why,
    /// The line, and below it marks under the word that is wrong; empty where it is the script that is too long.
    pub shown: String,
}

impl fmt::Display for Complaint {
    fn fmt<W: fmt::Write>(&self, f: &mut fmt::Formatter<W>) -> fmt::Result {
        let number = self.number;
        write!(f, "line {number}: {}", self.why)?;
        if !self.shown.is_empty() {
            write!(f, "\n{}", self.shown.as_str())?;
        }
        Ok(())
    }
}

impl Error for Complaint {}

// Why a fresh store hasn't taken a file.
fn untaken_file(path: &Text, attributes: &Attributes) -> Wrong {
    let (word, why) = if !is_path(path.as_str()) {
        (1, Why::Path)
    } else if !is_permission(attributes.permission) {
        (2, Why::Permission)
    } else if !is_replication(attributes.replication) {
        (3, Why::Replication)
    } else if !is_block_size(attributes.block_size) {
        (4, Why::BlockSize)
    } else {
        (1, Why::Place)
    };
    Wrong { word, why }
}

// Why a fresh store hasn't taken this path, where that has nothing else to do with it.
fn untaken_path(path: &Text, other: Why) -> Wrong {
    let why = if is_path(path.as_str()) {
        other
    } else {
        Why::Path
    };
    Wrong { word: 1, why }
}

// Why a fresh store hasn't taken a line. It takes each fault.
fn untaken(line: &Line) -> Wrong {
    match line {
        Line::Dir { path } => untaken_path(path, Why::Place),
        Line::File {
            path,
            attributes,
            bytes: _,
        } => untaken_file(path, attributes),
        Line::Short { path, .. } => untaken_path(path, Why::Replica),
        Line::Fault(_) => Wrong {
            word: 1,
            why: Why::FaultWords,
        },
    }
}

// Why an entry may not stand at this place of a script.
fn wrong_place(place: Place, entry: &Entry) -> Wrong {
    let (word, why) = match entry {
        Entry::Sets(Setting::Namenodes(_)) if place.part == 0 => (2, Why::Namenodes),
        Entry::Sets(Setting::Active(_)) if place.part == 0 => (2, Why::Active),
        _ => (0, Why::Order),
    };
    Wrong { word, why }
}

// Why an entry is refused at this place of a script, over a store that is fresh or isn't.
fn wrong_at(fresh: bool, place: Place, entry: &Entry) -> Wrong {
    match entry {
        _ if !may_stand(place, entry) => wrong_place(place, entry),
        Entry::Loads(line) if fresh => untaken(line),
        _ => Wrong {
            word: 0,
            why: Why::HeldStore,
        },
    }
}

// What is wrong with a line of no entry, where its bytes tell it better than its words: the first word with a byte that isn't ASCII,
// a carriage return at its end, or an empty word.
fn sharpened(line: &[u8], wrong: Wrong) -> Wrong {
    let mut words = line.split(|b| *b == b' ');
    if wrong.why == Why::NotAscii {
        let word = words.position(|word| !is_ascii(word)).unwrap_or(0);
        return Wrong { word, ..wrong };
    }
    if line.ends_with(b"\r") {
        let word = words.count().saturating_sub(1);
        let why = Why::CarriageReturn;
        return Wrong { word, why };
    }
    let word = words.position(|word| word.is_empty()).unwrap_or(wrong.word);
    Wrong { word, ..wrong }
}

/// Why a line is refused in this place. None for want of memory.
fn wrong_on(alloc: Global, fresh: bool, place: Place, line: &[u8]) -> Option<Wrong> {
    match reading(alloc, line).ok()? {
        Ok(entry) => Some(wrong_at(fresh, place, &entry)),
        Err(wrong) => Some(sharpened(line, wrong)),
    }
}

/// Where a script stands behind a line. None for want of memory.
fn place_after(alloc: Global, line: &[u8], place: Place) -> Option<Place> {
    let entry = entry(alloc, line).ok()?;
    let behind = place_behind(place, &entry);
    drop(entry);
    Some(behind)
}

/// Why a script is refused at this line over a store that was fresh or wasn't. None for want of memory.
pub fn complaint_at(alloc: Global, bytes: &[u8], fresh: bool, number: u64) -> Option<Complaint> {
    let front = bytes.get(..SCRIPT_LIMIT).unwrap_or(bytes);
    let mut lines = front.split(|b| *b == b'\n');
    let mut place = FIRST_PLACE;
    for _ in 1..number {
        place = place_after(alloc, lines.next()?, place)?;
    }
    let line = lines.next()?;
    let mut shown = String::new(alloc);
    let mut why = Why::TooLong;
    if bytes.len() <= SCRIPT_LIMIT || lines.next().is_some() {
        let wrong = wrong_on(alloc, fresh, place, line)?;
        why = wrong.why;
        shown = marked(alloc, line, wrong.word).ok()?;
    }
    Some(Complaint { number, why, shown })
}
