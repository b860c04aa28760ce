//! What is asked of namenodes in the name of one client, and what is asked for once.
ghost use Rattle.std.specs.Prelude.{◌≡◌, ◌↔◌, false, Some, None, Ok, IfOk, IfSome, IsTrue, OnErr};
ghost use Rattle.hdfs_leases.specs.Leases.{IsIdle, last_of};
ghost use Rattle.hdfs_cluster.specs.Namenode.{IsShaped};
ghost use Rattle.hdfs_cluster.specs.Requests.{AskOf};
ghost use Rattle.hdfs_cluster.specs.declared.asks.Ask.TheVariants as asks;
ghost use Rattle.hdfs_cluster.specs.declared.asks.Answer.TheVariants as answers;
ghost use Rattle.hdfs_namenode.specs.Asked.{Asked, IsServiceOf, ReachesAll, SameService, as_answer};
ghost use Rattle.hdfs_namenode.specs.Relaying.{Came, CameCached};
ghost use Rattle.hdfs_namenode.specs.Views.{Seen};

use crate::proxy::NameServiceProxy;
use hdfs_cluster::{Answer, Ask, Cluster, EncryptionKey, HdfsError, ServerDefaults};
use hdfs_leases::FileLeases;
use hdfs_wire::{NoMemory, Text};
use std::alloc::Global;
use uuid::Uuid;

/// What is asked of namenodes in the name of one client, by the names of ClientProtocol's calls (upstream's
/// `NamenodeProtocol`). Each call makes one ask, through a name service's proxy. Its errors are those of `NameServiceProxy::call`;
/// `NoMemory` comes also where there was none for the ask, which wasn't made then.
#[derive(Drop)]
pub struct NamenodeProtocol {
    pub(crate) alloc: Global,
    pub(crate) proxy: NameServiceProxy,
    pub(crate) client: Text,
    pub(crate) defaults: Option<ServerDefaults>,
    pub(crate) key: Option<EncryptionKey>,
    pub(crate) leases: FileLeases,
}

impl NamenodeProtocol {
    ghost use Rattle.hdfs_namenode.specs.Clients.{KeepsAnswered, SameClient, client_name, name_of, defaults_of, key_of, leases_of, proxy_of, through};

    /// Asks a name service in the name `hdfs_native_client-` and the client's sixteen bytes as a UUID.
    pub fn new(
        alloc: Global,
        proxy: NameServiceProxy,
        client: [u8; 16],
    ) -> Result<NamenodeProtocol, NoMemory>
        ensures proxy { IfOk result (λ namenode. proxy_of namenode ≡ proxy) }
        ensures name { IfOk result (λ namenode. name_of namenode ≡ client_name client) }
        ensures defaults { IfOk result (λ namenode. defaults_of namenode ≡ None) }
        ensures key { IfOk result (λ namenode. key_of namenode ≡ None) }
        ensures leases { IfOk result (λ namenode. IsIdle (leases_of namenode) × (last_of (leases_of namenode) ≡ None)) }
    {
        let mut buffer = Uuid::encode_buffer();
        let id = Uuid::from_bytes(client)
            .hyphenated()
            .encode_lower(&mut buffer);
        let name = format!(in alloc; "hdfs_native_client-{id}")?;
        Ok(NamenodeProtocol {
            alloc,
            proxy,
            client: Text::from_string(name),
            defaults: None,
            key: None,
            leases: FileLeases::new(alloc),
        })
    }

    /// The name in which it asks, by which namenodes and datanodes know the client.
    pub fn client_name(&self) -> &str
        ensures { result.now ≡ name_of self.now }
    {
        self.client.as_str()
    }

    /// Whether the namenodes that it asks are namenodes of the cluster.
    pub fn is_service_of<C: Cluster>(&self, cluster: &C) -> bool
        ensures { IsTrue result ↔ IsServiceOf (proxy_of self.now) (C.shown cluster.now) }
    {
        self.proxy.is_service_of(cluster)
    }

    /// Whether they are all namenodes that the cluster has.
    pub fn reaches_all<C: Cluster>(&self, cluster: &C) -> bool
        ensures { IsTrue result ↔ ReachesAll (proxy_of self.now) (C.shown cluster.now) }
    {
        self.proxy.reaches_all(cluster)
    }

    /// Makes this ask of its service.
    pub(crate) fn ask<C: Cluster>(
        &mut self,
        cluster: &mut C,
        ask: Ask,
        write: bool,
    ) -> Result<Answer, HdfsError>
        requires service { IsServiceOf (proxy_of self.old) (C.shown cluster.old) }
        requires allowed { C.allows (AskOf ask) }
        ensures asked { Asked C.serves write ask (through self.old cluster.old) result (through self.new cluster.new) }
        ensures came { Seen C.shown (through self.old cluster.old) cluster.new
            (λ old new. Came old ask result new) }
        ensures shape { IfOk result (IsShaped ask) }
        ensures answered { IfOk result (C.may_answer ask) }
        ensures keeps { SameClient self.old self.new }
    {
        let answer = self.proxy.call(cluster, &ask, write);
        drop(ask);
        answer
    }

    /// What the cluster takes where a client says nothing.
    pub fn get_server_defaults<C: Cluster>(
        &mut self,
        cluster: &mut C,
    ) -> Result<ServerDefaults, HdfsError>
        requires service { IsServiceOf (proxy_of self.old) (C.shown cluster.old) }
        requires allowed { C.allows (AskOf asks.GetServerDefaults) }
        ensures asked { Asked C.serves false asks.GetServerDefaults (through self.old cluster.old)
            (as_answer answers.GetServerDefaults result) (through self.new cluster.new) }
        ensures came { Seen C.shown (through self.old cluster.old) cluster.new
            (λ old new. Came old asks.GetServerDefaults (as_answer answers.GetServerDefaults result) new) }
        ensures answered { IfOk result (λ defaults. C.may_answer asks.GetServerDefaults
            (answers.GetServerDefaults defaults)) }
        ensures keeps { SameClient self.old self.new }
    {
        let answer = self.ask(cluster, Ask::GetServerDefaults, false)?;
        let defaults = match answer {
            Answer::GetServerDefaults(defaults) => defaults,
            _ => unreachable!(),
        };
        drop(answer);
        Ok(defaults)
    }

    /// The same, asked for once: what was answered is kept, and given again.
    pub fn get_cached_server_defaults<C: Cluster>(
        &mut self,
        cluster: &mut C,
    ) -> Result<ServerDefaults, HdfsError>
        requires service { IsServiceOf (proxy_of self.old) (C.shown cluster.old) }
        requires allowed { C.allows (AskOf asks.GetServerDefaults) }
        ensures known { IfSome (defaults_of self.old) (λ kept. (result ≡ Ok kept) × (cluster.new ≡ cluster.old)
            × (self.new ≡ self.old)) }
        ensures asked { defaults_of self.old ≡ None → Asked C.serves false asks.GetServerDefaults
            (through self.old cluster.old)
            (as_answer answers.GetServerDefaults result) (through self.new cluster.new) }
        ensures came { Seen C.shown (through self.old cluster.old) cluster.new
            (λ old new. CameCached (defaults_of self.old) old result new) }
        ensures kept { IfOk result (λ defaults. defaults_of self.new ≡ Some defaults) }
        ensures answered { KeepsAnswered C.may_answer self.old → KeepsAnswered C.may_answer self.new }
        ensures err { OnErr result (defaults_of self.new ≡ None) }
        ensures held { (key_of self.new ≡ key_of self.old) × (leases_of self.new ≡ leases_of self.old) }
        ensures keeps { (name_of self.new ≡ name_of self.old) × SameService (proxy_of self.old) (proxy_of self.new) }
    {
        if let Some(defaults) = self.defaults {
            return Ok(defaults);
        }
        match self.get_server_defaults(cluster) {
            Ok(defaults) => {
                self.defaults = Some(defaults);
                Ok(defaults)
            }
            Err(error) => Err(error),
        }
    }
}
