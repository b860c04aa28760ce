//! What the settings say of a name service: its namenodes, and how they are asked.
ghost use Rattle.std.specs.Prelude.{◌≡◌, ◌⊎◌, ◌++◌, ◌∷◌, [], true, false, Some, None, Ok, IfOk, IfErr, map, option_map, string_bytes, codes, decimal};
ghost use Rattle.hdfs_names.specs.Configurations.{setting};
ghost use Rattle.hdfs_names.specs.Settings.{boolean, provider_key, resolve_key};
ghost use Rattle.hdfs_client.specs.Services as spec;
ghost use Rattle.hdfs_client.specs.Services.{Draws, address_in, drawn, planned};
ghost use Rattle.hdfs_client.specs.declared.build_error.BuildError.TheVariants as build_errors;

use crate::build_error::BuildError;
use hdfs_names::{Configuration, NamenodeAddress, NamesFault};
use hdfs_wire::{List, NoMemory, Text};
use rand_core::Rng;
use std::alloc::Global;

/// The namenodes of a name service, whether they are brought into step, and whether reads go to an observer first.
#[derive(Drop)]
pub struct ServicePlan {
    pub namenodes: List<NamenodeAddress>,
    pub aligned: bool,
    pub find_observer: bool,
}

/// The provider that reads from observers.
const OBSERVER: &str = "org.apache.hadoop.hdfs.server.namenode.ha.ObserverReadProxyProvider";

/// The provider that brings namenodes into step alone.
const ROUTER: &str =
    "org.apache.hadoop.hdfs.server.namenode.ha.RouterObserverReadConfiguredFailoverProxyProvider";

/// What the settings say of the service at a host, or of the one namenode at its port.
pub(crate) fn service_of<G: Rng>(
    alloc: Global,
    config: &Configuration,
    host: &str,
    port: Option<u16>,
    rng: &mut G,
) -> Result<ServicePlan, BuildError>
    ensures { Draws (spec.service_of (setting config.now) host.now port (G.stream rng.old)) result (G.stream rng.new) }
{
    match namenodes_at(alloc, config, host, port, rng) {
        Ok(namenodes) => plan_of(alloc, config, host, namenodes),
        Err(error) => Err(error),
    }
}

/// The service of these namenodes, where there is one.
fn plan_of(
    alloc: Global,
    config: &Configuration,
    host: &str,
    namenodes: List<NamenodeAddress>,
) -> Result<ServicePlan, BuildError>
    ensures ok { IfOk result (λ plan. plan ≡ planned (setting config.now (provider_key host.now)) namenodes) }
    ensures some { IfOk result (λ plan. spec.is_some_namenode namenodes ≡ true) }
    ensures err { IfErr result (λ e. (e ≡ build_errors.NoMemory) ⊎
        ((e ≡ build_errors.NoNamenode) × (namenodes ≡ []))) }
{
    if namenodes.as_slice().is_empty() {
        return Err(BuildError::NoNamenode);
    }
    match config.get_proxy_for_nameservice(alloc, host) {
        Ok(provider) => Ok(planned(provider, namenodes)),
        Err(_) => Err(BuildError::NoMemory),
    }
}

/// These namenodes, asked as the provider says.
fn planned(provider: Option<&str>, namenodes: List<NamenodeAddress>) -> ServicePlan
    ensures { result ≡ planned (option_map (λ x. x.now) provider.entry) namenodes }
{
    ServicePlan {
        namenodes,
        aligned: is_aligned(provider),
        find_observer: finds_observer(provider),
    }
}

/// Whether namenodes are brought into step.
fn is_aligned(provider: Option<&str>) -> bool
    ensures { result ≡ spec.is_aligned (option_map (λ x. x.now) provider.entry) }
{
    match provider {
        Some(provider) => provider == OBSERVER || provider == ROUTER,
        None => false,
    }
}

/// Whether reads go to an observer first.
fn finds_observer(provider: Option<&str>) -> bool
    ensures { result ≡ spec.finds_observer (option_map (λ x. x.now) provider.entry) }
{
    match provider {
        Some(provider) => provider == OBSERVER,
        None => false,
    }
}

/// The namenodes of the service at a host, or the one at its port.
fn namenodes_at<G: Rng>(
    alloc: Global,
    config: &Configuration,
    host: &str,
    port: Option<u16>,
    rng: &mut G,
) -> Result<List<NamenodeAddress>, BuildError>
    ensures { Draws (spec.namenodes_at (setting config.now) host.now port (G.stream rng.old)) result
        (G.stream rng.new) }
{
    match port {
        Some(port) => one_namenode(alloc, host, port),
        None => named_namenodes(alloc, config, host, rng),
    }
}

/// The namenode at a port.
fn one_namenode(alloc: Global, host: &str, port: u16) -> Result<List<NamenodeAddress>, BuildError>
    ensures ok { IfOk result (λ found. found ≡ address_in None (host.now ++ (codes ":" ++ decimal port)) ∷ []) }
    ensures err { IfErr result (λ e. e ≡ build_errors.NoMemory) }
{
    let address = Text::from_string(format!(in alloc; "{host}:{port}")?);
    let mut found = List::new(alloc);
    found.push(NamenodeAddress {
        address,
        service: None,
    })?;
    Ok(found)
}

/// The namenodes of the service of this name.
fn named_namenodes<G: Rng>(
    alloc: Global,
    config: &Configuration,
    host: &str,
    rng: &mut G,
) -> Result<List<NamenodeAddress>, BuildError>
    ensures { Draws (spec.named_namenodes (setting config.now) host.now (G.stream rng.old)) result (G.stream rng.new) }
{
    match urls_of(alloc, config, host, rng) {
        Ok(urls) => Ok(addresses_of(alloc, host, urls)?),
        Err(error) => Err(error),
    }
}

/// Their addresses.
fn urls_of<G: Rng>(
    alloc: Global,
    config: &Configuration,
    host: &str,
    rng: &mut G,
) -> Result<Vec<String>, BuildError>
    ensures known { IfOk result (λ urls. boolean (setting config.now (resolve_key host.now)) false ≡ false) }
    ensures drawn { IfOk result (λ urls. (map string_bytes urls.items, G.stream rng.new)
        ≡ drawn (setting config.now) host.now (G.stream rng.old)) }
    ensures err { IfErr result (λ e. (e ≡ build_errors.NoMemory)
        ⊎ ((e ≡ build_errors.ResolveNeeded) × (boolean (setting config.now (resolve_key host.now)) false ≡ true))) }
{
    match config.get_urls_for_nameservice(alloc, host, rng) {
        Ok(urls) => Ok(urls),
        Err(NamesFault::ResolveNeeded) => Err(BuildError::ResolveNeeded),
        Err(_) => Err(BuildError::NoMemory),
    }
}

/// The addresses of a service.
fn addresses_of(
    alloc: Global,
    host: &str,
    urls: Vec<String>,
) -> Result<List<NamenodeAddress>, NoMemory>
    ensures { IfOk result (λ found. found ≡ map (address_in (Some host.now)) (map string_bytes urls.items)) }
{
    let mut found = Vec::new(alloc);
    'urls: for url in urls.as_slice() {
        found.push(address_of(alloc, host, url.as_str())?)?;
    }
    Ok(List::from_vec(found))
}

/// An address of a service.
fn address_of(alloc: Global, host: &str, address: &str) -> Result<NamenodeAddress, NoMemory>
    ensures { IfOk result (λ found. found ≡ address_in (Some host.now) address.now) }
{
    Ok(NamenodeAddress {
        address: Text::from_str(alloc, address)?,
        service: Some(Text::from_str(alloc, host)?),
    })
}
