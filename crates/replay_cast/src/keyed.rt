//! The signers of a schedule's keys.
ghost use Rattle.std.specs.Prelude.{◌≡◌, map, IfOk};
ghost use Rattle.sig_scheme.specs.Views.{secret};
ghost use Rattle.replay_defs.specs.Keys.{IsKey};
ghost use Rattle.replay_defs.specs.Schedules.{AreListed};
ghost use Rattle.schedule_file.specs.Views as views;
ghost use Rattle.replay_cast.specs.Keyed.{secret_in, IsSignerOfKey, AreKeyed};

use rp_base::{NoMemory, Pid};
use schedule_file::{Key, Listed, Scheme};
use sig_scheme::{AnySigner, KeyFault, Secret};
use std::alloc::Global;

/// A process with its signer, which has signed nothing.
#[derive(Drop)]
pub struct Keyed {
    pub process: Pid,
    pub corrupt: bool,
    pub signer: AnySigner,
}

// The secret that the key is.
fn secret_of(key: &Key) -> Secret
    ensures { secret result ≡ secret_in (views.key key.now) }
{
    match *key {
        Key::Plain { key, total } => Secret::Plain { key, total },
        Key::Lms {
            height,
            ots,
            id,
            seed,
        } => Secret::Lms {
            height: u32::from(height),
            ots,
            id,
            seed,
        },
        Key::Hss {
            levels,
            height,
            ots,
            id,
            seed,
        } => Secret::Hss {
            levels: u32::from(levels),
            height: u32::from(height),
            ots,
            id,
            seed,
        },
    }
}

// The signer of a key of this scheme.
fn signer_of(alloc: Global, scheme: Scheme, key: &Key) -> Result<AnySigner, NoMemory>
    requires { IsKey scheme (views.key key.now) }
    ensures { IfOk result (IsSignerOfKey (views.key key.now)) }
{
    match secret_of(key).signer(alloc) {
        Ok(signer) => Ok(signer),
        Err(KeyFault::NoMemory) => Err(NoMemory),
        Err(KeyFault::Levels | KeyFault::TooTall | KeyFault::TooLong) => unreachable!(),
    }
}

/// Each process with its signer.
pub fn keyed_of(alloc: Global, scheme: Scheme, processes: &[Listed]) -> Result<Vec<Keyed>, NoMemory>
    requires { AreListed scheme 0 (map views.listed processes.now) }
    ensures { IfOk result (λ all. AreKeyed (map views.listed processes.now) all.items) }
{
    let mut all = Vec::new(alloc);
    for one in processes {
        let signer = signer_of(alloc, scheme, &one.key)?;
        all.push(Keyed {
            process: one.process,
            corrupt: one.corrupt,
            signer,
        })?;
    }
    Ok(all)
}
