ghost use Rattle.std.specs.Prelude.{◌≡◌, ◌<◌, [], IfOk, OnOk};
ghost use Rattle.torn_block.specs.declared.layout.TheConstants.{HOSTS};
ghost use Rattle.cluster_tie.specs.Parts.{AreFresh};
ghost use Rattle.cluster_tie.specs.View.{keeper, all_parts, host_parts};

use crate::naming::Naming;
use crate::rule::{Front, Law};
use crate::ties::Ties;
use crate::token::{DiskTie, HostTie, JournalTie};
use crate::view::View;
use atomic_table::{Seat, Table};
use std::alloc::{AllocError, Global};
use std::marker::PhantomData;
use torn_block::HOSTS;

/// A table with no name yet, of an empty list and so many disks.
#[derive(Drop)]
pub struct Opened {
    disks: u8,
    table: Table<u64, View, u8, Law, Global>,
    seat: Seat<u64, View>,
    ghost of_one: { seat.table_id ≡ table.shared.table_id },
    ghost all_is: { seat.me ≡ (keeper [] (all_parts disks), []) },
    ghost has_word: { 0 < table.shared.table_id.words },
}

/// The tokens of one table.
#[derive(Drop)]
pub struct Tokens<N: Naming> {
    pub journal: JournalTie<N>,
    pub disks: Vec<DiskTie<N>>,
    pub hosts: Vec<HostTie<N>>,
}

impl Opened {
    /// Takes memory for one word.
    pub fn new(alloc: Global, disks: u8) -> Result<Opened, AllocError>
        ensures { IfOk result (λ o. o.disks ≡ disks) }
    {
        let (table, seat) = Table::of_words(alloc, &[0], &disks)?;
        Ok(Opened { disks, table, seat })
    }

    /// The table under a name, with its tokens.
    pub fn named<N: Naming>(self, alloc: Global) -> Result<(Ties<N>, Tokens<N>), AllocError>
        requires { self.table.shared.table_id ≡ N.table }
        ensures journal { IfOk result (λ r. r.1.journal ≡ []) }
        ensures disks { IfOk result (λ r. AreFresh self.disks r.1.disks.items) }
        ensures hosts { IfOk result (λ r. AreFresh HOSTS r.1.hosts.items) }
    {
        let Opened {
            disks,
            table,
            mut seat,
        } = self;
        let ties = Ties {
            table,
            of: PhantomData,
        };
        let disks = ties.deal_disks(alloc, &mut seat, disks)?;
        let hosts = ties.deal_hosts(alloc, &mut seat)?;
        let tokens = Tokens {
            journal: JournalTie {
                seat,
                of: PhantomData,
            },
            disks,
            hosts,
        };
        Ok((ties, tokens))
    }
}

impl<N: Naming> Ties<N> {
    fn deal_disks(
        &self,
        alloc: Global,
        seat: &mut Seat<u64, View>,
        disks: u8,
    ) -> Result<Vec<DiskTie<N>>, AllocError>
        requires table { seat.old.table_id ≡ N.table }
        requires all { seat.old.me ≡ (keeper [] (all_parts disks), []) }
        ensures table { seat.new.table_id ≡ N.table }
        ensures rest { OnOk result (seat.new.me ≡ (keeper [] host_parts, [])) }
        ensures dealt { IfOk result (λ v. AreFresh disks v.items) }
    {
        let mut tokens = Vec::with_capacity(alloc, usize::from(disks))?;
        for _k in 0..disks {
            let first = self.table.shared.split_seat::<Front>(seat);
            let token = DiskTie {
                seat: first,
                of: PhantomData,
            };
            tokens.push_reserved(token);
        }
        Ok(tokens)
    }

    fn deal_hosts(
        &self,
        alloc: Global,
        seat: &mut Seat<u64, View>,
    ) -> Result<Vec<HostTie<N>>, AllocError>
        requires table { seat.old.table_id ≡ N.table }
        requires all { seat.old.me ≡ (keeper [] host_parts, []) }
        ensures table { seat.new.table_id ≡ N.table }
        ensures rest { OnOk result (seat.new.me ≡ (keeper [] [], [])) }
        ensures dealt { IfOk result (λ v. AreFresh HOSTS v.items) }
    {
        let mut tokens = Vec::with_capacity(alloc, HOSTS)?;
        for _k in 0..HOSTS {
            let first = self.table.shared.split_seat::<Front>(seat);
            let token = HostTie {
                seat: first,
                of: PhantomData,
            };
            tokens.push_reserved(token);
        }
        Ok(tokens)
    }
}
