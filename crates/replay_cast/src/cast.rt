//! The processes of a schedule as they begin.
ghost use Rattle.std.specs.Prelude.{◌≡◌, map, IfOk, OnOk};
ghost use Rattle.sig_scheme.specs.Signers.{used};
ghost use Rattle.signature_defs.specs.Schemes.{is_valid};
ghost use Rattle.sig_scheme.specs.Views.{scheme as scheme_in};
ghost use Rattle.replay_defs.specs.Signers.{scheme_valid};
ghost use Rattle.replay_defs.specs.Worlds.{setting_of};
ghost use Rattle.replay_defs.specs.Schedules as schedules;
ghost use Rattle.schedule_file.specs.Views as views;
ghost use Rattle.view_table.specs.Views.{as_view};
ghost use Rattle.replay_cast.specs.Keyed.{entry, AreKeyed};
ghost use Rattle.replay_cast.specs.Starts.{Starts};

use crate::keyed::{Keyed, keyed_of};
use crate::liar::Liar;
use crate::player::Player;
use crate::roster::{Entry, entries_of, roster_of};
use member_core::Core;
use rp_base::{GroupId, NoMemory, Roster};
use said_index::SaidIndex;
use schedule_file::{Header, Scheme};
use shared_checks::SharedScheme;
use sig_scheme::AnyScheme;
use std::alloc::Global;
use view_table::View;

/// Who takes part.
#[derive(Drop)]
pub struct Cast {
    pub group: GroupId,
    pub scheme: SharedScheme,

    /// The public keys of all processes.
    pub roster: Roster,

    /// The correct processes, by rising numbers, each as it starts.
    pub players: Vec<Player>,

    /// The corrupt processes, by rising numbers.
    pub liars: Vec<Liar>,
}

// How signatures are checked.
fn scheme_of(scheme: Scheme) -> AnyScheme
    ensures { scheme_valid scheme ≡ is_valid (scheme_in result) }
{
    match scheme {
        Scheme::Plain => AnyScheme::Plain,
        Scheme::Lms => AnyScheme::Lms,
        Scheme::Hss => AnyScheme::Hss,
    }
}

// The view in which the schedule begins.
fn genesis_of(header: &Header) -> View
    requires { schedules.IsHeader (views.header header.now) }
    ensures { result ≡ as_view 0 header.now.genesis.items }
{
    View::new(0, header.genesis.as_slice()).unwrap()
}

// A correct process, as it starts. It shares what is checked by the scheme.
fn player_of(
    alloc: Global,
    header: &Header,
    entries: &[Entry],
    scheme: &SharedScheme,
    one: Keyed,
) -> Result<Player, NoMemory>
    requires header { schedules.IsHeader (views.header header.now) }
    requires entries { map entry entries.now ≡ (setting_of (views.header header.now)).roster }
    requires unused { used one.signer ≡ 0 }
    ensures { IfOk result (λ player. Starts (views.header header.now) one player) }
{
    let roster = roster_of(alloc, entries)?;
    let signer = scheme.signer(one.signer)?;
    let core = Core::new(
        alloc,
        header.group,
        roster,
        genesis_of(header),
        one.process,
        header.batch,
        signer,
    )?;
    Ok(Player {
        process: one.process,
        core,
        said: SaidIndex::new(alloc),
    })
}

impl Cast {
    ghost use Rattle.replay_cast.specs.Casts.{Adds, IsEmpty, AllTakePart, IsCast};

    /// The processes of a schedule's header, as they begin.
    pub fn new(alloc: Global, header: &Header) -> Result<Cast, NoMemory>
        requires { schedules.IsHeader (views.header header.now) }
        ensures { IfOk result (IsCast (views.header header.now)) }
    {
        let all = keyed_of(alloc, header.scheme, &header.processes)?;
        let entries = entries_of(alloc, &all)?;
        let roster = roster_of(alloc, &entries)?;
        let scheme = SharedScheme::new(alloc, scheme_of(header.scheme))?;
        let mut cast = Cast {
            group: header.group,
            scheme,
            roster,
            players: Vec::new(alloc),
            liars: Vec::new(alloc),
        };
        cast.add_all(alloc, header, &entries, all)?;
        Ok(cast)
    }

    // One process more takes part.
    fn add(
        &mut self,
        alloc: Global,
        header: &Header,
        entries: &[Entry],
        one: Keyed,
    ) -> Result<(), NoMemory>
        requires header { schedules.IsHeader (views.header header.now) }
        requires entries { map entry entries.now ≡ (setting_of (views.header header.now)).roster }
        requires unused { used one.signer ≡ 0 }
        ensures adds { OnOk result (Adds (views.header header.now) one self.old self.new) }
        ensures group { self.new.group ≡ self.old.group }
        ensures scheme { self.new.scheme ≡ self.old.scheme }
        ensures roster { self.new.roster ≡ self.old.roster }
    {
        if one.corrupt {
            self.liars.push(Liar {
                process: one.process,
                signer: one.signer,
            })?;
            return Ok(());
        }
        let player = player_of(alloc, header, entries, &self.scheme, one)?;
        self.players.push(player)?;
        Ok(())
    }

    // All take part, in this order.
    fn add_all(
        &mut self,
        alloc: Global,
        header: &Header,
        entries: &[Entry],
        all: Vec<Keyed>,
    ) -> Result<(), NoMemory>
        requires header { schedules.IsHeader (views.header header.now) }
        requires entries { map entry entries.now ≡ (setting_of (views.header header.now)).roster }
        requires keyed { AreKeyed (views.header header.now).processes all.items }
        requires empty { IsEmpty self.old }
        ensures adds { OnOk result (AllTakePart (views.header header.now) self.new) }
        ensures group { self.new.group ≡ self.old.group }
        ensures scheme { self.new.scheme ≡ self.old.scheme }
        ensures roster { self.new.roster ≡ self.old.roster }
    {
        let mut left = all.into_iter();
        'processes: while let Some(one) = left.next() {
            self.add(alloc, header, entries, one)?;
        }
        Ok(())
    }
}
