//! Reads of a session that are tried again: parts of a file of a cluster in memory whose datanode breaks its first packets. Prints the bytes,
//! or what to do about the error.
ghost use Rattle.std.specs.Prelude.{◌<◌};
ghost use Rattle.hdfs_mem_cluster.specs.MemShown.{shown_of};

mod making;

use crate::advice::advice_on;
use crate::failed::Failed;
use crate::patient::apply_patiently;
use crate::reading::making::{cluster, read, settings, standby};
use hdfs_cluster::HdfsError;
use hdfs_mem_cluster::{MemCluster, let_go};
use hdfs_model::Reply;
use std::alloc::Global;

/// Reads: the path of a file, an offset and a length, how many packets the datanode breaks, and how often it is asked at most.
const READS: [(&str, u64, u64, u64, u32); 11] = [
    ("/report", 2, 4, 0, 3),
    ("/report", 2, 4, 1, 3),
    ("/report", 2, 4, 1, 2),
    ("/report", 2, 4, 2, 3),
    ("/report", 2, 4, 3, 3),
    ("/none", 0, 1, 0, 3),
    ("/", 0, 1, 0, 3),
    ("/report/below", 0, 1, 0, 3),
    ("/report/", 0, 1, 0, 3),
    ("/report", 7, 2, 0, 3),
    ("/report", 0, u64::MAX, 0, 3),
];

/// The bytes of a reply, or what to do about an error.
fn answer(alloc: Global, given: &Result<Reply, HdfsError>) -> Result<String, Failed> {
    match given {
        Ok(Reply::Bytes { bytes }) => Ok(format!(in alloc; "{:?}", bytes.as_slice())?),
        Ok(_) => Ok(String::from_str(alloc, "another reply")?),
        Err(error) => Ok(format!(in alloc; "{:?}", advice_on(error))?),
    }
}

/// What comes of a read over a cluster.
fn ask_over(
    alloc: Global,
    cluster: &mut MemCluster,
    asked: &(&str, u64, u64, u64, u32),
) -> Result<String, Failed>
    requires { 0 < (shown_of cluster.old).namenodes }
{
    let (path, offset, len, _, tries) = *asked;
    let settings = settings(alloc)?;
    let command = read(alloc, path, offset, len)?;
    let given = apply_patiently(alloc, cluster, &settings, &command, tries);
    answer(alloc, &given)
}

/// What comes of a read over a new cluster.
fn ask(alloc: Global, asked: &(&str, u64, u64, u64, u32)) -> Result<String, Failed> {
    let mut cluster = cluster(alloc, asked.3)?;
    let told = ask_over(alloc, &mut cluster, asked);
    let_go(cluster);
    told
}

/// Prints an error, and what to do about it.
fn advise(rt: &HostRuntime, error: &HdfsError) -> Result<(), Failed> {
    println!(rt; "{error}: {:?}", advice_on(error))?;
    Ok(())
}

/// Reads, prints what came of it, and then what to do about other errors.
pub(crate) fn run(rt: &HostRuntime) -> Result<(), Failed> {
    for asked in &READS {
        let answer = ask(rt.alloc(), asked)?;
        let (path, offset, len, broken, tries) = asked;
        println!(rt;
            "{path} {offset} {len}, {broken} broken, {tries} tries: {}",
            answer.as_str()
        )?;
    }
    advise(rt, &HdfsError::NoMemory)?;
    advise(rt, &HdfsError::Failed)?;
    advise(rt, &standby(rt.alloc())?)
}
