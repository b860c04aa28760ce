//! Clients of the services of a cluster.

use hdfs_client::Client;
use hdfs_namenode::{NameServiceProxy, NamenodeProtocol};
use hdfs_names::{MountLink, MountTable, NamenodeAddress, ReplaceDatanodeOnFailure};
use hdfs_wire::{List, NoMemory, Text};
use std::alloc::Global;

/// These links. Each other path leads to the first service, by its own name; the home directory is `/home`.
fn mounts_of(alloc: Global, mounts: List<MountLink>) -> Result<MountTable, NoMemory> {
    Ok(MountTable {
        mounts,
        fallback: MountLink {
            viewfs_path: Text::new(alloc),
            hdfs_path: Text::new(alloc),
            service: 0,
        },
        home_dir: Text::from_str(alloc, "/home")?,
    })
}

/// `/zero` and `/one` are both `/d`, of the first service and of the second one.
fn two_links(alloc: Global) -> Result<List<MountLink>, NoMemory> {
    let mut links = List::new(alloc);
    links.push(MountLink::new(alloc, "/zero", "/d", 0)?)?;
    links.push(MountLink::new(alloc, "/one", "/d", 1)?)?;
    Ok(links)
}

/// One more service.
fn push_service(
    alloc: Global,
    services: &mut Vec<NamenodeProtocol>,
    service: NameServiceProxy,
) -> Result<(), NoMemory> {
    services.push(NamenodeProtocol::new(alloc, service, [0; 16])?)?;
    Ok(())
}

/// The addresses of so many namenodes.
fn addresses(alloc: Global, namenodes: u32) -> Result<Vec<NamenodeAddress>, NoMemory> {
    let mut addresses = Vec::new(alloc);
    for _ in 0..namenodes {
        addresses.push(NamenodeAddress {
            address: Text::from_str(alloc, "one:1")?,
            service: None,
        })?;
    }
    Ok(addresses)
}

/// A client of these services of a cluster of so many namenodes, by these links.
fn client_by(
    alloc: Global,
    links: List<MountLink>,
    services: Vec<NamenodeProtocol>,
    namenodes: u32,
) -> Result<Client, NoMemory> {
    let addresses = addresses(alloc, namenodes)?;
    let replacement = ReplaceDatanodeOnFailure::default();
    match Client::from_parts(
        alloc,
        mounts_of(alloc, links)?,
        services,
        addresses,
        replacement,
    ) {
        Some(client) => Ok(client),
        None => Err(NoMemory),
    }
}

/// A client of one service of so many namenodes. Where it is `in_step`, its namenodes are brought into step by an `msync`, and its reads go
/// to an observer first.
fn client_of_all(alloc: Global, namenodes: u32, in_step: bool) -> Result<Client, NoMemory> {
    let service = NameServiceProxy::new(0, namenodes.max(1), in_step, in_step);
    let mut services = Vec::new(alloc);
    push_service(alloc, &mut services, service)?;
    client_by(alloc, List::new(alloc), services, namenodes)
}

/// A client of two services, of the first namenode alone and of the second one alone.
fn client_of_two(alloc: Global, namenodes: u32) -> Result<Client, NoMemory> {
    let mut services = Vec::new(alloc);
    push_service(
        alloc,
        &mut services,
        NameServiceProxy::new(0, 1, false, false),
    )?;
    push_service(
        alloc,
        &mut services,
        NameServiceProxy::new(1, 1, false, false),
    )?;
    client_by(alloc, two_links(alloc)?, services, namenodes)
}

/// A client of one service of so many namenodes, which is asked plainly.
pub(crate) fn client_of(alloc: Global, namenodes: u32) -> Result<Client, NoMemory> {
    client_of_all(alloc, namenodes, false)
}

/// A client of a cluster of so many namenodes: of one service that is in step, of two services, or else of one that is asked plainly.
pub(crate) fn client_named(alloc: Global, name: &str, namenodes: u32) -> Result<Client, NoMemory> {
    match name {
        "inStep" => client_of_all(alloc, namenodes, true),
        "apart" => client_of_two(alloc, namenodes),
        _ => client_of(alloc, namenodes),
    }
}
