use cluster_tie::Naming;
use std::marker::Brand;
use std::sync::ledger::Ledger;

/// Names one cluster: its table of tokens, the ledger of its promises, and how large it is.
pub trait ClusterName: Naming + Ledger {
    ghost use Rattle.std.specs.Prelude.{ℕ};
    ghost use Rattle.paxos_block.specs.Shape.{Shape};

    ghost shape: { Shape };

    /// All parts of the ledger.
    ghost all: { ℕ };
}

impl ClusterName for Brand {
    ghost shape = { record { disks = 1; slots = 1 } };

    ghost all = { 1 };
}
