//! A case: what steps are taken over.
ghost use Rattle.hdfs_cluster.specs.Loading.{AreValid};

use crate::memory::planning::{self, Plans};
use crate::memory::{
    asking, calling, clients, files, globbing, keeping, loading, reading, seeing, storing,
    streaming, writing,
};
use crate::steps::{Said, Stage, Words, small};
use hdfs_client::Client;
use hdfs_cluster::{Cluster, MemSettings, ServerDefaults};
use hdfs_mem_cluster::MemCluster;
use hdfs_namenode::{NameServiceProxy, NamenodeProtocol};
use hdfs_wire::NoMemory;
use std::alloc::Global;

/// A cluster in memory, what asks its namenodes for a client, a client that is kept, and plans of faults that are tried alone. Each stands in
/// a box, so that it is let go of in one step, which keeps proofs short.
#[derive(Drop)]
pub(crate) struct Case {
    alloc: Global,
    cluster: Box<MemCluster>,
    client: Box<NamenodeProtocol>,
    kept: Box<Client>,
    plans: Box<Plans>,
}

/// A new cluster.
fn cluster_of(alloc: Global, settings: MemSettings) -> Result<Box<MemCluster>, NoMemory>
    requires { AreValid settings }
{
    Ok(Box::new(alloc, MemCluster::new(alloc, settings)?)?)
}

/// A client of so many namenodes, from the first one on.
fn client_of(alloc: Global, namenodes: u32) -> Result<Box<NamenodeProtocol>, NoMemory> {
    let service = NameServiceProxy::new(0, namenodes.max(1), false, false);
    Ok(Box::new(alloc, NamenodeProtocol::new(alloc, service, [0; 16])?)?)
}

/// A client of the cluster's services, to be kept.
fn kept_of(alloc: Global, name: &str, namenodes: u32) -> Result<Box<Client>, NoMemory> {
    Ok(Box::new(alloc, clients::client_named(alloc, name, namenodes)?)?)
}

/// The settings of scripts, but for what a step names: how many namenodes there are, which one is active, how many datanodes there are, and
/// how many bytes a chunk and a packet have.
fn settings_of(words: &Words<'_>) -> MemSettings {
    let defaults = MemSettings::of_scripts().defaults;
    MemSettings {
        namenodes: small(words[1]),
        active: small(words[2]),
        nodes: small(words[3]),
        defaults: ServerDefaults {
            bytes_per_checksum: small(words[4]),
            write_packet_size: small(words[5]),
            ..defaults
        },
    }
}

impl Case {
    /// Over the cluster of scripts that set nothing.
    pub(crate) fn new(alloc: Global) -> Result<Case, NoMemory> {
        Ok(Case {
            alloc,
            cluster: cluster_of(alloc, MemSettings::of_scripts())?,
            client: client_of(alloc, 1)?,
            kept: kept_of(alloc, "plain", 1)?,
            plans: Plans::new(alloc)?,
        })
    }

    /// A new case begins.
    fn begin(&mut self, said: &mut Said) {
        match Case::new(self.alloc) {
            Ok(case) => *self = case,
            Err(_) => said.fails("NoMemory"),
        }
    }

    /// Another cluster, and another client of all its namenodes.
    fn make(&mut self, settings: MemSettings, said: &mut Said) {
        if !settings.are_valid() {
            said.fails("settings");
            return;
        }
        match cluster_of(self.alloc, settings) {
            Ok(cluster) => self.cluster = cluster,
            Err(_) => said.fails("NoMemory"),
        }
        match client_of(self.alloc, settings.namenodes) {
            Ok(client) => self.client = client,
            Err(_) => said.fails("NoMemory"),
        }
    }

    /// Another client is kept.
    fn keep(&mut self, name: &str, said: &mut Said) {
        match kept_of(self.alloc, name, self.cluster.namenodes()) {
            Ok(client) => self.kept = client,
            Err(_) => said.fails("NoMemory"),
        }
    }

    /// A call of the client, where its namenodes are there.
    fn call(&mut self, words: &Words<'_>, said: &mut Said) {
        if self.client.is_service_of(&*self.cluster) {
            calling::take(
                self.alloc,
                &mut *self.client,
                &mut *self.cluster,
                words,
                said,
            );
        } else {
            said.fails("namenodes");
        }
    }
}

impl Stage for Case {
    fn take(&mut self, words: &Words<'_>, said: &mut Said) {
        let cluster = &mut *self.cluster;
        match words[0] {
            "==" => self.begin(said),
            "cluster" => self.make(settings_of(words), said),
            "prepare" | "dir" | "file" | "large" | "short" | "fault" => loading::take(
                self.alloc, cluster, words, said,
            ),
            "fresh" | "namenodes" | "calls" | "links" | "nodes" => seeing::take(
                cluster, words, said,
            ),
            "ask" => asking::take(self.alloc, cluster, words, said),
            "write" | "open" | "begin" | "hold" | "transfer" => writing::take(
                self.alloc, cluster, words, said,
            ),
            "read" => reading::read_back(self.alloc, cluster, words, said),
            "readFile" | "readRange" | "readOften" => files::take(self.alloc, cluster, words, said),
            "stream" | "closed" | "into" | "fill" => streaming::take(
                self.alloc, cluster, words, said,
            ),
            "glob" => globbing::take(self.alloc, cluster, words, said),
            "storeFile" | "goOn" | "lend" | "giveBack" | "giveUp" => storing::take(
                self.alloc, cluster, words, said,
            ),
            "client" => self.keep(words[1], said),
            "by" => keeping::take(&mut *self.kept, cluster, words, said),
            "plan" | "tally" => planning::take(self.alloc, &mut *self.plans, words, said),
            _ => self.call(words, said),
        }
    }
}
