//! The mounts that the settings of a cluster name, and the services to which they lead.
ghost use Rattle.std.specs.Prelude.{◌≡◌, ◌⊎◌, ◌≤◌, Some, None, Ok, Err, IfOk, IfErr, OnOk, map, option_copied, option_map, string_bytes, length};
ghost use Rattle.hdfs_names.specs.Configurations.{entries_of, mount_text, setting};
ghost use Rattle.hdfs_client.specs.Mounting as spec;
ghost use Rattle.hdfs_client.specs.Mounting.{held_by, link_to, nothing, place_in, slashes_in, with_link};
ghost use Rattle.hdfs_client.specs.Services.{Draws};
ghost use Rattle.hdfs_client.specs.declared.build_error.BuildError.TheVariants as build_errors;

use crate::build_error::BuildError;
use crate::places::{Place, read};
use crate::service_plan::{ServicePlan, service_of};
use hdfs_names::{Configuration, MountLink};
use hdfs_wire::{NoMemory, Text};
use rand_core::Rng;
use std::alloc::Global;

/// What is mounted: links, those with the most slashes first; the fallback, once it was named; and the services, by the numbers that these
/// have for them.
#[derive(Drop)]
pub struct Mounting {
    pub(crate) links: Vec<MountLink>,
    pub(crate) fallback: Option<MountLink>,
    pub(crate) services: Vec<ServicePlan>,
}

/// The mounts of a client that begins at a place.
pub(crate) fn mounts_at<G: Rng>(
    alloc: Global,
    config: &Configuration,
    place: &Place,
    rng: &mut G,
) -> Result<Mounting, BuildError>
    ensures ok { IfOk result (λ mounting. spec.mounts_at (setting config.now) (entries_of config.now)
        (G.stream rng.old) place.now ≡ Ok (held_by mounting, G.stream rng.new)) }
    ensures err { IfErr result (λ e. (spec.mounts_at (setting config.now) (entries_of config.now)
        (G.stream rng.old) place.now ≡ Err e) ⊎ (e ≡ build_errors.NoMemory)) }
{
    let mut mounting = Mounting::new(alloc);
    if place.scheme.as_str() == "viewfs" {
        mounting.mount_cluster(alloc, config, &place.host, rng)?;
    } else {
        mounting.mount_at(alloc, config, None, "/", place, rng)?;
    }
    Ok(mounting)
}

impl Mounting {
    /// Nothing is mounted.
    fn new(alloc: Global) -> Mounting
        ensures { held_by result ≡ nothing }
    {
        Mounting {
            links: Vec::new(alloc),
            fallback: None,
            services: Vec::new(alloc),
        }
    }

    /// Mounts what the settings name for a cluster, in the order of their keys.
    fn mount_cluster<G: Rng>(
        &mut self,
        alloc: Global,
        config: &Configuration,
        cluster: &Option<Text>,
        rng: &mut G,
    ) -> Result<(), BuildError>
        requires { held_by self.old ≡ nothing }
        ensures ok { OnOk result (spec.mounts_of (setting config.now) (entries_of config.now) cluster.now
            (G.stream rng.old) ≡ Ok (held_by self.new, G.stream rng.new)) }
        ensures err { IfErr result (λ e. (spec.mounts_of (setting config.now) (entries_of config.now) cluster.now
            (G.stream rng.old) ≡ Err e) ⊎ (e ≡ build_errors.NoMemory)) }
    {
        let Some(cluster) = cluster else {
            return Err(BuildError::Host);
        };
        let Ok(mounts) = config.get_mount_table(alloc, cluster.as_str()) else {
            return Err(BuildError::NoMemory);
        };
        self.mount_all(alloc, config, mounts.as_slice(), rng)
    }

    /// Mounts these paths and URLs in their order.
    fn mount_all<G: Rng>(
        &mut self,
        alloc: Global,
        config: &Configuration,
        mounts: &[(Option<String>, String)],
        rng: &mut G,
    ) -> Result<(), BuildError>
        ensures ok { OnOk result (spec.mount_all (setting config.now) (map mount_text mounts.now)
            (Ok (held_by self.old, G.stream rng.old)) ≡ Ok (held_by self.new, G.stream rng.new)) }
        ensures err { IfErr result (λ e. (spec.mount_all (setting config.now) (map mount_text mounts.now)
            (Ok (held_by self.old, G.stream rng.old)) ≡ Err e) ⊎ (e ≡ build_errors.NoMemory)) }
    {
        'mounts: for (viewfs_path, url) in mounts {
            self.mount_url(alloc, config, viewfs_path, url.as_str(), rng)?;
        }
        Ok(())
    }

    /// Mounts the path and service of a URL.
    fn mount_url<G: Rng>(
        &mut self,
        alloc: Global,
        config: &Configuration,
        viewfs_path: &Option<String>,
        url: &str,
        rng: &mut G,
    ) -> Result<(), BuildError>
        ensures ok { OnOk result (spec.mount_url (setting config.now) (held_by self.old)
            (option_map string_bytes viewfs_path.now) url.now (G.stream rng.old)
            ≡ Ok (held_by self.new, G.stream rng.new)) }
        ensures err { IfErr result (λ e. (spec.mount_url (setting config.now) (held_by self.old)
            (option_map string_bytes viewfs_path.now) url.now (G.stream rng.old) ≡ Err e)
            ⊎ (e ≡ build_errors.NoMemory)) }
    {
        match read(alloc, url) {
            Ok(place) => {
                let path = place.path.as_str();
                self.mount_at(alloc, config, text_of(viewfs_path), path, &place, rng)
            }
            Err(error) => Err(error),
        }
    }

    /// Mounts a path of the service at a place.
    fn mount_at<G: Rng>(
        &mut self,
        alloc: Global,
        config: &Configuration,
        viewfs_path: Option<&str>,
        path: &str,
        place: &Place,
        rng: &mut G,
    ) -> Result<(), BuildError>
        ensures ok { OnOk result (spec.mount_at (setting config.now) (held_by self.old)
            (option_copied viewfs_path.entry) path.now (G.stream rng.old) place.now
            ≡ Ok (held_by self.new, G.stream rng.new)) }
        ensures err { IfErr result (λ e. (spec.mount_at (setting config.now) (held_by self.old)
            (option_copied viewfs_path.entry) path.now (G.stream rng.old) place.now ≡ Err e)
            ⊎ (e ≡ build_errors.NoMemory)) }
    {
        match service_by(alloc, config, place, rng) {
            Ok(service) => self.put(alloc, viewfs_path, path, service),
            Err(error) => Err(error),
        }
    }

    /// Mounts a path of a service.
    fn put(
        &mut self,
        alloc: Global,
        viewfs_path: Option<&str>,
        path: &str,
        service: ServicePlan,
    ) -> Result<(), BuildError>
        ensures ok { OnOk result (spec.put (held_by self.old) (option_copied viewfs_path.entry) path.now service
            ≡ Ok (held_by self.new)) }
        ensures err { IfErr result (λ e. (spec.put (held_by self.old) (option_copied viewfs_path.entry) path.now service
            ≡ Err e) ⊎ (e ≡ build_errors.NoMemory)) }
    {
        let number = self.services.len();
        self.services.push(service)?;
        match viewfs_path {
            Some(viewfs_path) => self.put_link(link_between(alloc, viewfs_path, path, number)?)?,
            None => self.put_fallback(link_between(alloc, "/", path, number)?)?,
        }
        Ok(())
    }

    /// Puts a link to its place.
    fn put_link(&mut self, link: MountLink) -> Result<(), NoMemory>
        ensures links { OnOk result (self.new.links.items ≡ with_link link self.old.links.items) }
        ensures rest { (self.new.fallback ≡ self.old.fallback) × (self.new.services ≡ self.old.services) }
    {
        let place = place_in(self.links.as_slice(), slashes_in(link.viewfs_path.as_str()));
        self.links.insert(place, link)?;
        Ok(())
    }

    /// Puts the fallback, where there is none yet.
    fn put_fallback(&mut self, link: MountLink) -> Result<(), BuildError>
        ensures ok { OnOk result (spec.or_fallback link self.old.fallback ≡ Ok self.new.fallback) }
        ensures err { IfErr result (λ e. spec.or_fallback link self.old.fallback ≡ Err e) }
        ensures rest { (self.new.links ≡ self.old.links) × (self.new.services ≡ self.old.services) }
    {
        if self.fallback.is_some() {
            return Err(BuildError::Mounts);
        }
        self.fallback = Some(link);
        Ok(())
    }
}

/// The service at a place, which needs a host, and the scheme `hdfs`.
fn service_by<G: Rng>(
    alloc: Global,
    config: &Configuration,
    place: &Place,
    rng: &mut G,
) -> Result<ServicePlan, BuildError>
    ensures { Draws (spec.service_by (setting config.now) place.now.scheme place.now.host place.now.port
        (G.stream rng.old)) result (G.stream rng.new) }
{
    let Some(host) = &place.host else {
        return Err(BuildError::Host);
    };
    if place.scheme.as_str() != "hdfs" {
        return Err(BuildError::Scheme);
    }
    service_of(alloc, config, host.as_str(), place.port, rng)
}

/// A link between two paths, without the slashes at their ends, to the service of this number.
fn link_between(
    alloc: Global,
    viewfs_path: &str,
    path: &str,
    service: usize,
) -> Result<MountLink, NoMemory>
    ensures { IfOk result (λ link. link ≡ link_to viewfs_path.now path.now service) }
{
    MountLink::new(alloc, viewfs_path, path, service)
}

/// The place of a path with so many slashes: behind the links whose paths have as many or more.
fn place_in(links: &[MountLink], slashes: usize) -> usize
    ensures is { result ≡ spec.place_in slashes links.now }
    ensures within { result ≤ length links.now }
{
    'links: for place in 0..links.len() {
        if slashes_in(links[place].viewfs_path.as_str()) < slashes {
            return place;
        }
    }
    links.len()
}

/// How many slashes a text has.
fn slashes_in(text: &str) -> usize
    ensures { result ≡ spec.slashes_in text.now }
{
    let mut slashes = 0;
    'bytes: for byte in text.as_bytes() {
        if *byte == b'/' {
            slashes += 1;
        }
    }
    slashes
}

/// A text that may be there, as a slice.
fn text_of(text: &Option<String>) -> Option<&str>
    ensures { option_copied result ≡ option_map string_bytes text.now }
{
    match text {
        Some(text) => Some(text.as_str()),
        None => None,
    }
}
