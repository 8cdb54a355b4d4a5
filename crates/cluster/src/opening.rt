ghost use Rattle.std.specs.Prelude.{◌≡◌, ◌<◌, [], IfOk};
ghost use Rattle.torn_block.specs.declared.layout.TheConstants.{HOSTS};
ghost use Rattle.cluster_tie.specs.Parts.{AreFresh};
ghost use Rattle.cluster.specs.Opening.{IsNamed};
ghost use Rattle.cluster.specs.declared.journal.TheConstants.{MOST};

use crate::cluster_name::ClusterName;
use cluster_tie::{Opened, Ties, Tokens};
use disk::NoMemory;
use paxos_block::Config;
use std::alloc::Global;
use std::marker::Model;
use std::sync::ledger::Blank;

/// How many parts the ledger of promises has: more than can ever be promised at once.
const PARTS: u64 = 1 << 32;

/// A cluster that has no name yet.
#[derive(Drop)]
pub struct Opening {
    config: Config,
    table: Opened,
    promises: Blank,
}

impl Model for Opening {
    ghost use Rattle.std.specs.Prelude.{◌≡◌, ◌<◌};
    ghost use Rattle.cluster.specs.Opening.{OpeningState};
    ghost use Rattle.cluster.specs.declared.journal.TheConstants.{MOST};

    ghost Value = { OpeningState };

    ghost view = { λ o. record {
      shape = o.config;
      table = o.table.table.shared.table_id;
      ledger = o.promises.name;
      parts = o.promises.parts;
    } };

    ghost invariant = { λ o. (o.table.disks ≡ o.config.disks) × (MOST < o.promises.parts) };
}

/// What a cluster needs beside its disks, made for the cluster of one name.
#[derive(Drop)]
pub struct Foundation<N: ClusterName> {
    pub(crate) config: Config,
    pub(crate) tokens: Tokens<N>,
    pub(crate) promises: Blank,
    ghost config_is: { config ≡ N.shape },
    ghost fresh: { (tokens.journal ≡ []) × AreFresh N.shape.disks tokens.disks.items × AreFresh HOSTS tokens.hosts.items },
    ghost ledger: { (promises.name ≡ N.name) × (promises.parts ≡ N.parts) × (N.all ≡ N.parts) × (MOST < N.all) },
}

impl Opening {
    /// Takes memory for one word.
    pub fn new(alloc: Global, config: Config) -> Result<Opening, NoMemory>
        ensures { IfOk result (λ o. o.shape ≡ config) }
    {
        Ok(Opening {
            config,
            table: Opened::new(alloc, config.disks())?,
            promises: Blank::new(PARTS),
        })
    }

    /// How large the cluster is.
    pub fn config(&self) -> Config
        ensures { result ≡ self.now.shape }
    {
        self.config
    }

    /// The cluster under a name, and the table that its tokens are of.
    pub fn named<N: ClusterName>(self, alloc: Global) -> Result<(Ties<N>, Foundation<N>), NoMemory>
        requires { IsNamed self N.shape N.table N.name N.parts N.all }
    {
        let Opening {
            config,
            table,
            promises,
        } = self;
        let (ties, tokens) = table.named::<N>(alloc)?;
        Ok((
            ties,
            Foundation {
                config,
                tokens,
                promises,
            },
        ))
    }
}
