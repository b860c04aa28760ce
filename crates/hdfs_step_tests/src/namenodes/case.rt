//! A case: what steps are taken over.
use crate::namenodes::fake_namenodes::{FakeNamenodes, Gives};
use crate::namenodes::telling::{tell_asked, tell_done};
use crate::namenodes::{asking, calling, keeping};
use crate::steps::{Said, Stage, Words, is_true, number, small};
use hdfs_namenode::{NameServiceProxy, NamenodeProtocol};
use hdfs_wire::NoMemory;
use std::alloc::Global;

/// Three namenodes, a service of them, and a client of all three. Each that is large stands in a box, so that it is let go of in one step,
/// which keeps proofs short.
#[derive(Drop)]
pub(crate) struct Case {
    alloc: Global,
    namenodes: Box<FakeNamenodes>,
    service: NameServiceProxy,
    client: Box<NamenodeProtocol>,
}

/// Three namenodes that answer.
fn answering(alloc: Global) -> Result<Box<FakeNamenodes>, NoMemory> {
    Ok(Box::new(alloc, FakeNamenodes::new(alloc, [Gives::Answer; 3], [0; 3]))?)
}

/// A client of all three.
fn client_of(alloc: Global) -> Result<Box<NamenodeProtocol>, NoMemory> {
    let service = NameServiceProxy::new(0, 3, false, false);
    Ok(Box::new(alloc, NamenodeProtocol::new(alloc, service, [7; 16])?)?)
}

impl Case {
    /// Namenodes that answer, and a plain service of all of them.
    pub(crate) fn new(alloc: Global) -> Result<Case, NoMemory> {
        Ok(Case {
            alloc,
            namenodes: answering(alloc)?,
            service: NameServiceProxy::new(0, 3, false, false),
            client: client_of(alloc)?,
        })
    }

    /// A new case begins.
    fn begin(&mut self, said: &mut Said) {
        match Case::new(self.alloc) {
            Ok(case) => *self = case,
            Err(_) => said.fails("NoMemory"),
        }
    }

    /// `service FIRST COUNT ALIGNED OBSERVED`: another service, of so many namenodes from the first one on.
    fn serve(&mut self, words: &Words<'_>) {
        let count = small(words[2]).max(1);
        let aligned = is_true(words[3]);
        self.service = NameServiceProxy::new(small(words[1]), count, aligned, is_true(words[4]));
    }

    /// `states STATE STATE STATE`: what namenodes say that they are in.
    fn set_states(&mut self, words: &Words<'_>) {
        self.namenodes.states = [small(words[1]), small(words[2]), small(words[3])];
    }

    /// `lease ID NAMESPACE`: the client has a file open for writing, or, of `unlease`, has it no longer.
    fn lease(&mut self, words: &Words<'_>, said: &mut Said) {
        let id = number(words[1]);
        if words[0] == "lease" {
            tell_done(self.client.add_file_lease(id, Some(words[2])).is_ok(), said);
        } else {
            self.client.remove_file_lease(id, Some(words[2]));
        }
    }

    /// A call of the client, where its namenodes are there.
    fn call(&mut self, words: &Words<'_>, said: &mut Said) {
        if !self.client.is_service_of(&*self.namenodes) {
            said.fails("namenodes");
            return;
        }
        match words[0] {
            "leaseStep" | "key" => keeping::take(
                &mut *self.client,
                &mut *self.namenodes,
                words,
                said,
            ),
            _ => calling::take(&mut *self.client, &mut *self.namenodes, words, said),
        }
    }
}

impl Stage for Case {
    fn take(&mut self, words: &Words<'_>, said: &mut Said) {
        match words[0] {
            "==" => self.begin(said),
            "service" => self.serve(words),
            "states" => self.set_states(words),
            "gives" => asking::set_gives(&mut *self.namenodes, words),
            "encrypts" => self.namenodes.encrypts = true,
            "read" | "write" => asking::take(
                self.alloc,
                &mut self.service,
                &mut *self.namenodes,
                words,
                said,
            ),
            "asked" => tell_asked(self.namenodes.asked.as_slice(), said),
            "asks" => said.number(self.namenodes.asked.len() as u64),
            "lease" | "unlease" => self.lease(words, said),
            _ => self.call(words, said),
        }
    }
}
