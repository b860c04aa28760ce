//! A program that uses the client: it reads by a session, and again where that may pass; by a `Client` it reads the ends of files, puts records
//! behind a log, and copies a tree; all over clusters in memory.
#![tactic(auto)]

ghost use Rattle.hdfs_client.specs.Clients.{IsClientOf};
ghost use Rattle.hdfs_mem_cluster.specs.MemShown.{shown_of};

mod advice;
mod copying;
mod failed;
mod finishing;
mod footers;
mod logs;
mod making;
mod opening;
mod passing;
mod patient;
mod reading;

use copying::copy_tree;
use failed::Failed;
use footers::{Footer, footers};
use hdfs_client::{Client, ClientError};
use hdfs_cluster::HdfsError;
use hdfs_mem_cluster::{MemCluster, let_go};
use hdfs_wire::Text;
use logs::{Log, put};
use making::{Trouble, client, cluster};
use std::alloc::Global;

/// How many entries a pattern or a tree has at most.
const LIMIT: u64 = 100;

/// Prints the ends, or why there are none.
fn tell_footers(rt: &HostRuntime, found: &Result<Vec<Footer>, ClientError>) -> Result<(), Failed> {
    match found {
        Ok(found) => {
            for footer in found {
                println!(rt; "{} {:?}", footer.path.as_str(), footer.bytes.as_slice())?;
            }
        }
        Err(error) => println!(rt; "{error}")?,
    }
    Ok(())
}

/// Prints the ends of the files that a pattern names.
fn show(
    rt: &HostRuntime,
    client: &mut Client,
    cluster: &mut MemCluster,
    pattern: &str,
) -> Result<(), Failed>
    requires { IsClientOf client.old (shown_of cluster.old) }
    ensures { IsClientOf client.new (shown_of cluster.new) }
{
    println!(rt; "{pattern}:")?;
    let found = footers(rt.alloc(), client, cluster, pattern, LIMIT);
    let told = tell_footers(rt, &found);
    drop(found);
    told
}

/// Prints whether a record was put, and the number of the log's last file.
fn tell_put(rt: &HostRuntime, done: &Result<(), HdfsError>, number: u64) -> Result<(), Failed> {
    match done {
        Ok(_) => println!(rt; "put into log.{number}")?,
        Err(error) => println!(rt; "{error}, log.{number}")?,
    }
    Ok(())
}

/// Puts two records behind a log.
fn put_two(
    rt: &HostRuntime,
    client: &mut Client,
    cluster: &mut MemCluster,
    log: &mut Log,
) -> Result<(), Failed>
    requires { IsClientOf client.old (shown_of cluster.old) }
    ensures { IsClientOf client.new (shown_of cluster.new) }
{
    let first = put(rt.alloc(), client, cluster, log, &[1, 2, 3]);
    let second = put(rt.alloc(), client, cluster, log, &[4, 5, 6]);
    let told = tell_put(rt, &first, log.number);
    drop(first);
    let told_next = tell_put(rt, &second, log.number);
    drop(second);
    told?;
    told_next
}

/// Prints how many bytes were copied.
fn tell_copied(rt: &HostRuntime, copied: &Result<u64, ClientError>) -> Result<(), Failed> {
    match copied {
        Ok(count) => println!(rt; "{count} bytes copied")?,
        Err(error) => println!(rt; "{error}")?,
    }
    Ok(())
}

/// Copies the tree at `/data` to one path.
fn copy(
    rt: &HostRuntime,
    client: &mut Client,
    cluster: &mut MemCluster,
    to: &str,
) -> Result<(), Failed>
    requires { IsClientOf client.old (shown_of cluster.old) }
    ensures { IsClientOf client.new (shown_of cluster.new) }
{
    let copied = copy_tree(rt.alloc(), client, cluster, "/data", to, LIMIT);
    let told = tell_copied(rt, &copied);
    drop(copied);
    told
}

/// All three uses over a cluster.
fn use_all(
    rt: &HostRuntime,
    client: &mut Client,
    cluster: &mut MemCluster,
    log: &mut Log,
) -> Result<(), Failed>
    requires { IsClientOf client.old (shown_of cluster.old) }
{
    put_two(rt, client, cluster, log)?;
    copy(rt, client, cluster, "/copy")?;
    show(rt, client, cluster, "/{data,logs,copy}/*")?;
    show(rt, client, cluster, "/copy/sub/c")
}

/// The log of these examples.
fn log(alloc: Global) -> Result<Log, Failed> {
    Ok(Log {
        stem: Text::from_str(alloc, "/logs/log")?,
        number: 7,
    })
}

/// All three uses by a new client.
fn use_over(rt: &HostRuntime, cluster: &mut MemCluster) -> Result<(), Failed> {
    let mut client = client(rt.alloc())?;
    let mut log = log(rt.alloc())?;
    if !client.is_of(&*cluster) {
        return Err(Failed::Refused);
    }
    use_all(rt, &mut client, cluster, &mut log)
}

/// The same over a new cluster, in which this fails.
fn run(rt: &HostRuntime, trouble: Trouble) -> Result<(), Failed> {
    let mut cluster = cluster(rt.alloc(), trouble)?;
    let told = use_over(rt, &mut cluster);
    let_go(cluster);
    told
}

fn main(rt: HostRuntime) -> Result<(), Failed> {
    reading::run(&rt)?;
    run(&rt, Trouble::Nothing)?;
    println!(rt; "in safe mode:")?;
    run(&rt, Trouble::SafeMode)?;
    println!(rt; "without the first pipeline:")?;
    run(&rt, Trouble::Pipelines(1))?;
    println!(rt; "without the first five:")?;
    run(&rt, Trouble::Pipelines(5))
}
