//! The constructors of a client: what `ClientBuilder::build` builds of their arguments, with its errors.
ghost use Rattle.std.specs.Prelude.{IfOk, [], Some, None, map, option_copied};
ghost use Rattle.hdfs_names.specs.Configurations.{pair_text};
ghost use Rattle.hdfs_client.specs.Building.{AsksAny, Builds, given_from};

use crate::build_error::BuildError;
use crate::builder::ClientBuilder;
use crate::client::Client;
use hdfs_cluster::copy_optional_text;
use rand_core::Rng;
use std::alloc::Global;

impl Client {
    /// The client of a URL for a user, without settings.
    pub fn new<G: Rng>(
        alloc: Global,
        url: &str,
        user: &str,
        rng: &mut G,
    ) -> Result<Client, BuildError>
        ensures builds { let given = given_from (Some url.now) [] (Some user.now) in
            Builds given (G.stream rng.old) result (G.stream rng.new) }
        ensures any { IfOk result AsksAny }
    {
        built(alloc, Some(url), Vec::new(alloc), Some(user), rng)
    }

    /// The client of a URL by some settings, for a user.
    pub fn new_with_config<G: Rng>(
        alloc: Global,
        url: &str,
        config: Vec<(String, String)>,
        user: &str,
        rng: &mut G,
    ) -> Result<Client, BuildError>
        ensures builds { let given = given_from (Some url.now) (map pair_text config.items) (Some user.now) in
            Builds given (G.stream rng.old) result (G.stream rng.new) }
        ensures any { IfOk result AsksAny }
    {
        built(alloc, Some(url), config, Some(user), rng)
    }

    /// The client of the default URL that the settings name, for a user.
    pub fn default_with_config<G: Rng>(
        alloc: Global,
        config: Vec<(String, String)>,
        user: &str,
        rng: &mut G,
    ) -> Result<Client, BuildError>
        ensures builds { let given = given_from None (map pair_text config.items) (Some user.now) in
            Builds given (G.stream rng.old) result (G.stream rng.new) }
        ensures any { IfOk result AsksAny }
    {
        built(alloc, None, config, Some(user), rng)
    }

    /// The same for the user `user`.
    pub fn default_client<G: Rng>(
        alloc: Global,
        config: Vec<(String, String)>,
        rng: &mut G,
    ) -> Result<Client, BuildError>
        ensures builds { let given = given_from None (map pair_text config.items) None in
            Builds given (G.stream rng.old) result (G.stream rng.new) }
        ensures any { IfOk result AsksAny }
    {
        built(alloc, None, config, None, rng)
    }
}

/// The client of these.
fn built<G: Rng>(
    alloc: Global,
    url: Option<&str>,
    config: Vec<(String, String)>,
    user: Option<&str>,
    rng: &mut G,
) -> Result<Client, BuildError>
    ensures builds { let given = given_from (option_copied url.entry) (map pair_text config.items)
        (option_copied user.entry) in
        Builds given (G.stream rng.old) result (G.stream rng.new) }
    ensures any { IfOk result AsksAny }
{
    let builder = ClientBuilder {
        alloc,
        url: copy_optional_text(alloc, url)?,
        config,
        user: copy_optional_text(alloc, user)?,
    };
    builder.build(rng)
}
