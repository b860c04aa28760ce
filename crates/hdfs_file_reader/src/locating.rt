//! Where the bytes of a file lie.
ghost use Rattle.std.specs.Prelude.{◌-◌, ◌^◌, IfOk, IfErr};
ghost use Rattle.hdfs_cluster.specs.Requests.{AskOf};
ghost use Rattle.hdfs_cluster.specs.declared.asks.Ask.TheVariants as asks;
ghost use Rattle.hdfs_file_reader.specs.Looking.{AnswersLookUp, AreBlocksOf, FilesStay, LocatesFile, LooksInVain, LooksUp, OnlyLooks};
ghost use Rattle.hdfs_namenode.specs.Asked.{IsServiceOf};
ghost use Rattle.hdfs_namenode.specs.Clients.{SameClient, proxy_of, through};
ghost use Rattle.hdfs_namenode.specs.Views.{InEachView, Seen};

use hdfs_cluster::{Cluster, HdfsError, LocatedBlocks};
use hdfs_namenode::NamenodeProtocol;
use hdfs_wire::Text;
use std::alloc::Global;

/// The length in bytes that asks for a whole file.
const WHOLE_FILE: u64 = 9223372036854775807;

/// The blocks of the file at a path, which the caller calls `name`, by one ask of a service.
///
/// Errors: `FileNotFound(name)`, and those of an ask.
pub fn locate<C: Cluster>(
    alloc: Global,
    cluster: &mut C,
    namenode: &mut NamenodeProtocol,
    name: &str,
    path: &str,
) -> Result<LocatedBlocks, HdfsError>
    requires service { IsServiceOf (proxy_of namenode.old) (C.shown cluster.old) }
    requires allowed { C.allows (AskOf (asks.GetBlockLocations path.now 0 (2 ^ 63 - 1))) }

    // over any cluster
    ensures looks { OnlyLooks (C.shown cluster.old) (C.shown cluster.new) }
    ensures ok { IfOk result AreBlocksOf }
    ensures client { SameClient namenode.old namenode.new }
    ensures asked { LooksUp C.serves name.now path.now
        (through namenode.old cluster.old) result (through namenode.new cluster.new) }
    ensures answered { AnswersLookUp C.may_answer path.now result }

    // as the service sees it, and over a picture that it is told, where nobody writes the file
    ensures files { Seen C.shown (through namenode.old cluster.old) cluster.new (FilesStay path.now) }
    ensures found { IfOk result (λ found. InEachView C.shown (through namenode.old cluster.old)
        (λ see. LocatesFile path.now (see (C.shown cluster.old)) found)) }
    ensures err { IfErr result (λ e. Seen C.shown (through namenode.old cluster.old) cluster.new
        (λ old new. LooksInVain name.now path.now old e new)) }
{
    match namenode.get_block_locations(cluster, path, 0, WHOLE_FILE) {
        Ok(Some(found)) => Ok(found),
        Ok(None) => Err(HdfsError::FileNotFound(Text::from_str(alloc, name)?)),
        Err(error) => Err(error),
    }
}
