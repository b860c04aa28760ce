//! A client as it was planned: its services, one behind another, and the addresses of their namenodes.
ghost use Rattle.std.specs.Prelude.{◌≡◌, ◌<◌, true, IfOk, IfErr, vec_len};
ghost use Rattle.std.specs.List.{list_all};
ghost use Rattle.hdfs_names.specs.Configurations.{setting};
ghost use Rattle.hdfs_client.specs.Building.{AreServices, AsksAny, IsMade, IsServiceBy, all_namenodes};
ghost use Rattle.hdfs_client.specs.Linked.{is_table};
ghost use Rattle.hdfs_client.specs.Services.{has_namenode, is_some_namenode};
ghost use Rattle.hdfs_client.specs.declared.build_error.BuildError.TheVariants as build_errors;

use crate::build_error::BuildError;
use crate::client::Client;
use crate::service_plan::ServicePlan;
use hdfs_connections::ConnectionCache;
use hdfs_namenode::{NameServiceProxy, NamenodeProtocol};
use hdfs_names::{Configuration, MountTable, NamenodeAddress};
use rand_core::Rng;
use std::alloc::Global;

/// The client of some mounts and of the services to which they lead. Each is called by the next sixteen bytes of the generator.
pub(crate) fn made<G: Rng>(
    alloc: Global,
    config: &Configuration,
    mounts: MountTable,
    plans: Vec<ServicePlan>,
    rng: &mut G,
) -> Result<Client, BuildError>
    requires table { is_table (vec_len plans) mounts ≡ true }
    requires some { list_all has_namenode plans.items ≡ true }
    ensures ok { IfOk result (IsMade (setting config.now) mounts plans.items (G.stream rng.old) (G.stream rng.new)) }
    ensures any { IfOk result AsksAny }
    ensures err { IfErr result (λ e. e ≡ build_errors.NoMemory) }
{
    let mut id = [0; 16];
    rng.fill_bytes(&mut id);
    let (services, addresses) = services_of(alloc, plans, id)?;
    Ok(Client {
        alloc,
        mounts,
        services,
        addresses,
        replacement: config.get_replace_datanode_on_failure_policy(),
        connections: ConnectionCache::new(alloc),
    })
}

/// The planned services, each of which begins where the one before ends, and the addresses of their namenodes.
fn services_of(
    alloc: Global,
    plans: Vec<ServicePlan>,
    id: [u8; 16],
) -> Result<(Vec<NamenodeProtocol>, Vec<NamenodeAddress>), BuildError>
    requires { list_all has_namenode plans.items ≡ true }
    ensures services { IfOk result (λ found. AreServices 0 id plans.items found.0.items) }
    ensures addresses { IfOk result (λ found. found.1.items ≡ all_namenodes plans.items) }
    ensures len { IfOk result (λ found. vec_len found.0 ≡ vec_len plans) }
    ensures err { IfErr result (λ e. e ≡ build_errors.NoMemory) }
{
    let mut services = Vec::new(alloc);
    let mut addresses = Vec::new(alloc);
    'plans: for plan in plans {
        services.push(service_from(alloc, addresses.len(), &plan, id)?)?;
        addresses.append(&mut plan.namenodes.into_vec())?;
    }
    Ok((services, addresses))
}

/// The service of the planned namenodes, of which the first has this number.
fn service_from(
    alloc: Global,
    first: usize,
    plan: &ServicePlan,
    id: [u8; 16],
) -> Result<NamenodeProtocol, BuildError>
    requires { is_some_namenode plan.now.namenodes ≡ true }
    ensures ok { IfOk result (IsServiceBy first plan.now id) }
    ensures err { IfErr result (λ e. e ≡ build_errors.NoMemory) }
{
    let (Ok(first), Ok(count)) = (
        u32::try_from(first),
        u32::try_from(plan.namenodes.as_slice().len()),
    ) else {
        return Err(BuildError::NoMemory);
    };
    let proxy = NameServiceProxy::new(first, count, plan.aligned, plan.find_observer);
    Ok(NamenodeProtocol::new(alloc, proxy, id)?)
}
