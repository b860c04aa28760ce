//! Files in one directory of a cluster in memory, which is listed page by page, or deleted, by a client of its one namenode.
use hdfs_cluster::{DirList, HdfsError};
use hdfs_fakes::cluster;
use hdfs_mem_cluster::{MemCluster, let_go};
use hdfs_namenode::{NameServiceProxy, NamenodeProtocol, NewFileTerms};
use std::alloc::Global;

/// The directory.
const DIR: &str = "/directory";

/// How many pages are asked for at most.
const PAGES: usize = 1000;

/// A client of the one namenode.
fn client_of(alloc: Global) -> Option<NamenodeProtocol> {
    let service = NameServiceProxy::new(0, 1, false, false);
    NamenodeProtocol::new(alloc, service, [0; 16]).ok()
}

/// Creates an empty file, and directories above it.
fn create(client: &mut NamenodeProtocol, cluster: &mut MemCluster, path: &str) -> bool {
    if !client.is_service_of(&*cluster) {
        return false;
    }
    let new_file = NewFileTerms {
        masked: 0o644,
        create_flag: 1,
        create_parent: true,
        replication: 1,
        block_size: 512,
    };
    let created = client.create(cluster, path, new_file);
    let done = created.is_ok();
    drop(created);
    done
}

/// Creates the file of this number in the directory.
fn create_part(
    alloc: Global,
    client: &mut NamenodeProtocol,
    cluster: &mut MemCluster,
    number: usize,
) -> Option<bool> {
    let path = format!(in alloc; "{DIR}/part-{number}").ok()?;
    Some(create(client, cluster, path.as_str()))
}

/// Creates so many files in the directory.
fn fill(
    alloc: Global,
    client: &mut NamenodeProtocol,
    cluster: &mut MemCluster,
    count: usize,
) -> Option<()> {
    for number in 0..count {
        if !create_part(alloc, client, cluster, number)? {
            return None;
        }
    }
    Some(())
}

/// The last name of a page, how many names it has, and whether none remains behind it.
fn end_of(alloc: Global, page: &DirList) -> Option<(Vec<u8>, u64, bool)> {
    let names = page.partial_listing.as_slice();
    let last = match names.last() {
        None => Vec::new(alloc),
        Some(status) => Vec::from_slice(alloc, status.path.as_slice()).ok()?,
    };
    Some((last, names.len() as u64, page.remaining_entries == 0))
}

/// The same of what a client is answered.
fn page_of(
    alloc: Global,
    answered: &Result<Option<DirList>, HdfsError>,
) -> Option<(Vec<u8>, u64, bool)> {
    match answered {
        Ok(Some(page)) => end_of(alloc, page),
        _ => None,
    }
}

/// The page behind a name.
fn page_behind(
    alloc: Global,
    client: &mut NamenodeProtocol,
    cluster: &mut MemCluster,
    name: &[u8],
) -> Option<(Vec<u8>, u64, bool)> {
    if !client.is_service_of(&*cluster) {
        return None;
    }
    let answered = client.get_listing(cluster, DIR, name, false);
    let end = page_of(alloc, &answered);
    drop(answered);
    end
}

/// Lists the directory page by page. Counts the names.
fn list(alloc: Global, client: &mut NamenodeProtocol, cluster: &mut MemCluster) -> Option<u64> {
    let mut name = Vec::new(alloc);
    let mut count = 0u64;
    for _page in 0..PAGES {
        let (last, names, is_last) = page_behind(alloc, client, cluster, name.as_slice())?;
        name = last;
        count = count.saturating_add(names);
        if is_last {
            return Some(count);
        }
    }
    None
}

/// Deletes the directory with all that is in it.
fn delete(client: &mut NamenodeProtocol, cluster: &mut MemCluster) -> bool {
    if !client.is_service_of(&*cluster) {
        return false;
    }
    let deleted = client.delete(cluster, DIR, true);
    let done = match &deleted {
        Ok(done) => *done,
        Err(_) => false,
    };
    drop(deleted);
    done
}

/// Lists the directory so often. Counts the names.
fn list_often(
    alloc: Global,
    client: &mut NamenodeProtocol,
    cluster: &mut MemCluster,
    times: usize,
) -> Option<u64> {
    let mut names = 0u64;
    for _time in 0..times {
        names = names.saturating_add(list(alloc, client, cluster)?);
    }
    Some(names)
}

/// Lists the directory of so many files so often, or deletes it, or does nothing. Counts the names.
fn run_by(
    alloc: Global,
    client: &mut NamenodeProtocol,
    cluster: &mut MemCluster,
    deed: &str,
    count: usize,
    times: usize,
) -> Option<u64> {
    fill(alloc, client, cluster, count)?;
    match deed {
        "made" => Some(count as u64),
        "deleted" if delete(client, cluster) => Some(count as u64),
        "deleted" => None,
        _ => list_often(alloc, client, cluster, times),
    }
}

/// Fills the directory of a cluster with so many files, and then lists it so often, or deletes it. Counts the names.
fn run(
    alloc: Global,
    cluster: &mut MemCluster,
    deed: &str,
    count: usize,
    times: usize,
) -> Option<u64> {
    let mut client = client_of(alloc)?;
    let names = run_by(alloc, &mut client, cluster, deed, count, times);
    drop(client);
    names
}

/// The same in a new cluster.
fn run_anew(alloc: Global, deed: &str, count: usize, times: usize) -> Option<u64> {
    match cluster(alloc) {
        Ok(mut cluster) => {
            let names = run(alloc, &mut cluster, deed, count, times);
            let_go(cluster);
            names
        }
        Err(_) => None,
    }
}

/// Fills a directory with so many files and lists it `times` times; or fills one in a new cluster, and deletes it or doesn't, `times` times.
/// Counts the names.
pub(crate) fn count_names(alloc: Global, deed: &str, count: usize, times: usize) -> Option<u64> {
    if deed == "listed" {
        return run_anew(alloc, deed, count, times);
    }
    let mut names = 0u64;
    for _time in 0..times {
        names = names.saturating_add(run_anew(alloc, deed, count, 1)?);
    }
    Some(names)
}
