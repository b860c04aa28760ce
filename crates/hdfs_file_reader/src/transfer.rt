//! Whether bytes of files may be moved.
ghost use Rattle.std.specs.Prelude.{◌≡◌, ◌<◌, ℕ, IfErr, IfSome, OnOk};
ghost use Rattle.hdfs_cluster.specs.Picture.{SameButActive, Told};
ghost use Rattle.hdfs_cluster.specs.Requests.{AskOf};
ghost use Rattle.hdfs_cluster.specs.declared.asks.Ask.TheVariants as asks;
ghost use Rattle.hdfs_namenode.specs.Asked.{IsServiceOf, ReachesAll};
ghost use Rattle.hdfs_namenode.specs.Clients.{KeepsAnswered, defaults_of, proxy_of};
ghost use Rattle.hdfs_file_reader.specs.Looking.{OnlyLooks};
ghost use Rattle.hdfs_file_reader.specs.Transferring.{LacksTransfer, MayMove, SameButKnown, StaysKnown};

use hdfs_cluster::{Cluster, Feature, HdfsError};
use hdfs_namenode::NamenodeProtocol;

/// Refuses to move so many bytes where the cluster's defaults, which are asked for once, want data encrypted on its way. Where there are
/// none, nothing is asked.
pub(crate) fn allow_transfer<C: Cluster>(
    cluster: &mut C,
    namenode: &mut NamenodeProtocol,
    len: u64,
) -> Result<(), HdfsError>
    requires service { IsServiceOf (proxy_of namenode.old) (C.shown cluster.old) }
    requires allowed { 0 < len → C.allows (AskOf asks.GetServerDefaults) }

    // over any cluster
    ensures looks { OnlyLooks (C.shown cluster.old) (C.shown cluster.new) }
    ensures keeps { SameButKnown namenode.old namenode.new }
    ensures none { len ≡ 0 → (cluster.new ≡ cluster.old) × (namenode.new ≡ namenode.old) }
    ensures known { IfSome (defaults_of namenode.old)
        (λ _. (cluster.new ≡ cluster.old) × (namenode.new ≡ namenode.old)) }
    ensures answered { KeepsAnswered C.may_answer namenode.old → KeepsAnswered C.may_answer namenode.new }
    ensures ok { OnOk result (MayMove len namenode.new) }
    ensures err { IfErr result (λ error. LacksTransfer len
        (C.shown cluster.old) namenode.old error (C.shown cluster.new) namenode.new) }

    // where it asks all namenodes of the cluster
    ensures picture { ReachesAll (proxy_of namenode.old) (C.shown cluster.old)
        → Told SameButActive (C.shown cluster.old).picture (C.shown cluster.new).picture }
    ensures knows { ReachesAll (proxy_of namenode.old) (C.shown cluster.old)
        → StaysKnown (C.shown cluster.old) (defaults_of namenode.old) (C.shown cluster.new) (defaults_of namenode.new) }
{
    if len == 0 {
        return Ok(());
    }
    let defaults = namenode.get_cached_server_defaults(cluster)?;
    if defaults.encrypt_data_transfer {
        return Err(HdfsError::UnsupportedFeature(Feature::Encryption));
    }
    Ok(())
}
