//! Lines of the script for a hosted process.
ghost use Rattle.std.specs.Prelude.{◌≡◌, ◌<◌, ◌==◌, ℕ, List, Some, length, option_map, IfOk};
ghost use Rattle.std.specs.List.{position_from};
ghost use Rattle.node_service.specs.Histories.{Process, Version, cast_of};
ghost use Rattle.node_service.specs.Words.{IsHosted};
ghost use Rattle.store_server.specs.Places.{payloads_of, scheme as scheme_in, scheme_of as plain_scheme, secret as secret_in};
ghost use Rattle.store_service.specs.Served.{AreThese, whose};
ghost use Rattle.store_service.specs.Service.{Serving, after_worded, worded};

use crate::places::place_of;
use node_service::{AnySigner, Hosted, Kit};
use std::alloc::Global;
use store_server::{AnyScheme, NoMemory, Secret, Server};

// The scheme of a secret, which is that of its kit.
fn scheme_of(secret: &Secret) -> AnyScheme
    ensures { scheme_in result ≡ plain_scheme (secret_in secret.now) }
{
    match secret {
        Secret::Plain { .. } => AnyScheme::Plain,
        Secret::Lms { .. } => AnyScheme::Lms,
        Secret::Hss { .. } => AnyScheme::Hss,
    }
}

// The line is said to the server at this place, that of the process; what it writes, where it has a word for the server.
fn say_at(
    alloc: Global,
    servers: &mut Vec<Server>,
    at: usize,
    kit: &Kit,
    process: &Hosted<AnySigner>,
    line: &str,
) -> Result<Option<Vec<u8>>, NoMemory>
    requires { at < length servers.old.items }
    ensures { (version : Version) (p : ℕ) (now : Process) (xs : List Serving) → let c = cast_of kit.now version in
        IsHosted c p now process.now → Some at ≡ position_from (λ server. whose server == p) 0 servers.old.items
        → AreThese xs servers.old.items
        → IfOk result (λ text. (option_map (λ t. t.items) text ≡ option_map (λ w. w.0) (worded c (payloads_of now.delivered) p line.now xs))
        × AreThese (after_worded c (payloads_of now.delivered) p line.now xs) servers.new.items) }
{
    let Some(secret) = kit.secret(process.core().me()) else {
        return Ok(None);
    };
    let mut text = Vec::new(alloc);
    let server = &mut servers[at];
    let heard = server.word(
        alloc,
        scheme_of(secret),
        kit.roster(),
        process.core().account(),
        line.as_bytes(),
        &mut text,
    )?;
    Ok(heard.then_some(text))
}

/// A line for this process is said to its server; what it writes, where it has a word for the server. None where it has no word, and where
/// the process has no server.
///
/// # Errors
/// [`NoMemory`]; the server may have taken the line then.
pub(crate) fn say(
    alloc: Global,
    servers: &mut Vec<Server>,
    kit: &Kit,
    process: &Hosted<AnySigner>,
    line: &str,
) -> Result<Option<Vec<u8>>, NoMemory>
    ensures { (version : Version) (p : ℕ) (now : Process) (xs : List Serving) → let c = cast_of kit.now version in
        IsHosted c p now process.now → AreThese xs servers.old.items
        → IfOk result (λ text. (option_map (λ t. t.items) text ≡ option_map (λ w. w.0) (worded c (payloads_of now.delivered) p line.now xs))
        × AreThese (after_worded c (payloads_of now.delivered) p line.now xs) servers.new.items) }
{
    match place_of(servers, process.core().me()) {
        Some(at) => say_at(alloc, servers, at, kit, process, line),
        None => Ok(None),
    }
}
