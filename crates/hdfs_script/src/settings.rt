//! The settings of a script, and those of its session.
ghost use Rattle.std.specs.Prelude.{◌≡◌, IfOk};
ghost use Rattle.hdfs_script.specs.Scripts as spec;

use crate::entry::{ScriptSettings, Setting};
use hdfs_cluster::MemSettings;
use hdfs_model::Settings;
use hdfs_names::{Policy, ReplaceDatanodeOnFailure};
use hdfs_wire::{NoMemory, Text};
use std::alloc::Global;

// The user of a script that sets none.
const USER: &str = "user";

// What a home directory's path is, in front of its user's name.
const HOMES: &str = "/user/";

// How often the pipeline of a block is rebuilt at most where a script sets nothing.
const REBUILDS: u32 = 8;

// How often another first pipeline of a block is tried at most.
const SETUPS: u32 = 3;

// How many packets of a block wait for their acknowledgement at most where a script sets nothing.
const WINDOW: u32 = 100;

/// The settings of a script that sets nothing.
pub(crate) fn no_settings(alloc: Global) -> Result<ScriptSettings, NoMemory>
    ensures { IfOk result (λ settings. settings ≡ spec.no_settings) }
{
    Ok(ScriptSettings {
        user: Text::from_str(alloc, USER)?,
        replace: ReplaceDatanodeOnFailure::new(Policy::Default, false),
        rebuild_limit: REBUILDS,
        window: WINDOW,
        cluster: MemSettings::of_scripts(),
    })
}

/// Gives one of the settings anew.
pub(crate) fn set(settings: &mut ScriptSettings, setting: Setting)
    ensures { settings.new ≡ spec.with_setting settings.old setting }
{
    match setting {
        Setting::User(user) => settings.user = user,
        Setting::Namenodes(namenodes) => settings.cluster.namenodes = namenodes,
        Setting::Active(active) => settings.cluster.active = active,
        Setting::Nodes(nodes) => settings.cluster.nodes = nodes,
        Setting::Block(size) => settings.cluster.defaults.block_size = size,
        Setting::Chunk(size) => settings.cluster.defaults.bytes_per_checksum = size,
        Setting::Packet(size) => settings.cluster.defaults.write_packet_size = size,
        Setting::Replication(replication) => settings.cluster.defaults.replication = replication,
        Setting::Encrypt(encrypt) => {
            settings.cluster.defaults.encrypt_data_transfer = encrypt;
        }
        Setting::Rebuilds(rebuilds) => settings.rebuild_limit = rebuilds,
        Setting::Window(window) => settings.window = window,
        Setting::Policy(policy) => settings.replace.policy = policy,
        Setting::BestEffort(best_effort) => settings.replace.best_effort = best_effort,
    }
}

/// The settings of a script's session.
pub fn session_settings(alloc: Global, given: &ScriptSettings) -> Result<Settings, NoMemory>
    ensures { IfOk result (λ settings. settings ≡ spec.session_settings given.now) }
{
    let mut home = String::from_str(alloc, HOMES)?;
    home.push_str(given.user.as_str())?;
    Ok(Settings {
        home: Text::from_string(home),
        client: [0; 16],
        replace: given.replace,
        rebuild_limit: given.rebuild_limit,
        window: given.window,
        setup_limit: SETUPS,
    })
}
