use arrayvec::ArrayVec;
use rp_base::{GroupId, Pid, Roster};
use sig_scheme::{AnyScheme, Secret};
use std::marker::Model;

/// What a process that is hosted holds.
#[derive(Drop)]
pub struct Host {
    pub process: Pid,
    pub secret: Secret,

    /// The keys that it shares with the other processes, by their rising numbers.
    pub pairs: Vec<(Pid, [u8; 32])>,
}

/// What the lines of a kit say. Contracts see it as the plain kit whose text is its spelling.
#[derive(Drop)]
pub struct Parts {
    pub scheme: AnyScheme,
    pub group: GroupId,
    pub roster: Roster,

    /// The members of the first view, in rank order.
    pub genesis: ArrayVec<Pid, 16>,

    /// The port of each process of the roster, by rising process number.
    pub ports: Vec<(Pid, u16)>,

    /// By rising process number.
    pub hosts: Vec<Host>,
}

impl Model for Parts {
    ghost use Rattle.kit_defs.specs.Kits as plain;
    ghost use Rattle.kit_file.specs.Views as views;

    ghost Value = { plain.Kit };

    ghost view = { λ k. views.kit k.scheme k.group k.roster k.genesis.items k.ports.items k.hosts.items };

    ghost invariant = { λ k. views.AreRising (views.hosts k.hosts.items) };
}
