//! Takes steps over a cluster in memory and over plans by which its calls fail, and over three namenodes that give what they are told to
//! give, by a service of them and by a client with mounts.
#![tactic(auto)]

mod memory;
mod mounts;
mod namenodes;
mod steps;

use hdfs_wire::NoMemory;
use std::alloc::Global;
use std::io;
use steps::{Said, Stage, Words, take_all};

/// What steps are taken over.
#[derive(Clone, Copy)]
enum Over {
    Memory,
    Namenodes,
    Mounts,
}

/// The cluster in memory, the namenodes, and the client with mounts. `over memory`, `over namenodes` and `over mounts` say what steps are
/// taken over.
#[derive(Drop)]
struct Stages {
    memory: memory::Case,
    namenodes: namenodes::Case,
    mounts: mounts::Case,
    over: Over,
}

impl Stages {
    fn new(alloc: Global) -> Result<Stages, NoMemory> {
        Ok(Stages {
            memory: memory::Case::new(alloc)?,
            namenodes: namenodes::Case::new(alloc)?,
            mounts: mounts::Case::new(alloc)?,
            over: Over::Memory,
        })
    }
}

/// What a word says that steps are taken over.
fn stage_of(word: &str) -> Over {
    match word {
        "memory" => Over::Memory,
        "namenodes" => Over::Namenodes,
        _ => Over::Mounts,
    }
}

impl Stage for Stages {
    fn take(&mut self, words: &Words<'_>, said: &mut Said) {
        if words[0] == "over" {
            self.over = stage_of(words[1]);
            return;
        }
        match self.over {
            Over::Memory => self.memory.take(words, said),
            Over::Namenodes => self.namenodes.take(words, said),
            Over::Mounts => self.mounts.take(words, said),
        }
    }
}

fn main(rt: HostRuntime) -> io::Result<()> {
    match Stages::new(rt.alloc()) {
        Ok(mut stages) => {
            let taken = take_all(&rt, &mut stages);
            drop(stages);
            taken
        }
        Err(_) => println!(rt; "out of memory"),
    }
}
