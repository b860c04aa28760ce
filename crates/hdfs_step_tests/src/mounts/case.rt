//! A case: what steps are taken over.
use crate::mounts::{asking, building, changing, iterating};
use crate::namenodes::fake_namenodes::{FakeNamenodes, Gives};
use crate::namenodes::telling::tell_asked;
use crate::steps::{Said, Stage, Words};
use hdfs_client::Client;
use hdfs_namenode::{NameServiceProxy, NamenodeProtocol};
use hdfs_names::{MountLink, MountTable, NamenodeAddress, ReplaceDatanodeOnFailure};
use hdfs_wire::{List, NoMemory, Text};
use std::alloc::Global;

/// Three namenodes, and a client of two services: of the first namenode, and of the two others.
#[derive(Drop)]
pub(crate) struct Case {
    alloc: Global,
    namenodes: Box<FakeNamenodes>,
    client: Box<Client>,
}

/// `/a/b` is `/x` of the second service, `/a` is `/y` of the first one, and so is all else; the home directory is `/a/home`.
fn mounts(alloc: Global) -> Result<MountTable, NoMemory> {
    let mut mounts = List::new(alloc);
    mounts.push(MountLink::new(alloc, "/a/b", "/x", 1)?)?;
    mounts.push(MountLink::new(alloc, "/a", "/y", 0)?)?;
    Ok(MountTable {
        mounts,
        fallback: MountLink {
            viewfs_path: Text::new(alloc),
            hdfs_path: Text::new(alloc),
            service: 0,
        },
        home_dir: Text::from_str(alloc, "/a/home")?,
    })
}

/// The two services.
fn services(alloc: Global) -> Result<Vec<NamenodeProtocol>, NoMemory> {
    let mut services = Vec::new(alloc);
    let first = NameServiceProxy::new(0, 1, false, false);
    services.push(NamenodeProtocol::new(alloc, first, [7; 16])?)?;
    let second = NameServiceProxy::new(1, 2, false, false);
    services.push(NamenodeProtocol::new(alloc, second, [7; 16])?)?;
    Ok(services)
}

/// The addresses of the three namenodes.
fn addresses(alloc: Global) -> Result<Vec<NamenodeAddress>, NoMemory> {
    let mut addresses = Vec::new(alloc);
    for name in ["zero:1", "one:1", "two:1"] {
        addresses.push(NamenodeAddress {
            address: Text::from_str(alloc, name)?,
            service: None,
        })?;
    }
    Ok(addresses)
}

/// The client.
fn client_of(alloc: Global) -> Result<Box<Client>, NoMemory> {
    let client = Client::from_parts(
        alloc,
        mounts(alloc)?,
        services(alloc)?,
        addresses(alloc)?,
        ReplaceDatanodeOnFailure::default(),
    );
    match client {
        Some(client) => Ok(Box::new(alloc, client)?),
        None => Err(NoMemory),
    }
}

impl Case {
    pub(crate) fn new(alloc: Global) -> Result<Case, NoMemory> {
        let namenodes = FakeNamenodes::new(alloc, [Gives::Answer; 3], [0; 3]);
        Ok(Case {
            alloc,
            namenodes: Box::new(alloc, namenodes)?,
            client: client_of(alloc)?,
        })
    }

    /// A new case begins.
    fn begin(&mut self, said: &mut Said) {
        match Case::new(self.alloc) {
            Ok(case) => *self = case,
            Err(_) => said.fails("NoMemory"),
        }
    }

    /// Another client is used from now on.
    fn take_client(&mut self, words: &Words<'_>, said: &mut Said) {
        if let Ok(client) = building::to_use(self.alloc, words[1], words[2], said) {
            self.client = client;
        }
    }

    /// A call of the client, where it may ask the namenodes.
    fn call(&mut self, words: &Words<'_>, said: &mut Said) {
        if !self.client.is_of(&*self.namenodes) {
            said.fails("namenodes");
            return;
        }
        match words[0] {
            "getFileInfo" | "listStatus" | "getContentSummary" | "getAclStatus" => asking::take(
                &mut *self.client,
                &mut *self.namenodes,
                words,
                said,
            ),
            "iterate" => iterating::take(&mut *self.client, &mut *self.namenodes, words, said),
            _ => changing::take(&mut *self.client, &mut *self.namenodes, words, said),
        }
    }
}

impl Stage for Case {
    fn take(&mut self, words: &Words<'_>, said: &mut Said) {
        match words[0] {
            "==" => self.begin(said),
            "asked" => tell_asked(self.namenodes.asked.as_slice(), said),
            "build" => building::build(self.alloc, words[1], words[2], said),
            "use" => self.take_client(words, said),
            "new" => building::new(self.alloc, words[1], said),
            "construct" => building::construct(self.alloc, words[1], words[2], words[3], said),
            "parts" => {
                said.number(self.client.services() as u64);
                for namenode in self.client.namenodes() {
                    said.word(namenode.address.as_str());
                }
            }
            _ => self.call(words, said),
        }
    }
}
