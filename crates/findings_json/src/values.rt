//! Findings as values of JSON.
ghost use Rattle.std.specs.Prelude.{◌≡◌, map, sum, length, string_bytes, IfOk, OnOk};
ghost use Rattle.std.specs.List.{AllByRecursion};
ghost use Rattle.hex.specs.Hex.{IsBytes, encode_lower};
ghost use Rattle.serde_json.specs.Data.{boolean, put as with_member};
ghost use Rattle.serde_json.specs.View.{view, members_view};
ghost use Rattle.accounts.specs.Views.{account};
ghost use Rattle.findings_json.specs.Views.{reported as reported_of, findings as findings_of};
ghost use Rattle.findings_laws.specs.Values as plain;
ghost use Rattle.findings_laws.specs.Laws.{AreBytes};

use crate::findings::{Conviction, Findings};
use accounts::{Account, Delivered};
use hex::encode;
use rp_base::{NoMemory, Pid};
use serde_json::{Map, Value, json, put};
use std::alloc::Global;
use view_table::View;

// The members of a view.
#[tactic(auto, using(serde_json::specs::declared::value::Value::the_lemmas))]
fn members_value(alloc: Global, members: &[Pid]) -> Result<Value, NoMemory>
    ensures { IfOk result (λ v. view v ≡ plain.array_of plain.number_of members.now) }
{
    let mut all = Vec::new(alloc);
    'members: for p in members {
        all.push(Value::from(p.get()))?;
    }
    Ok(Value::Array(all))
}

// The views of a process.
#[tactic(auto, using(serde_json::specs::declared::value::Value::the_lemmas))]
fn views_value(alloc: Global, views: &[View]) -> Result<Value, NoMemory>
    ensures { IfOk result (λ v. view v ≡ plain.array_of plain.view_data views.now) }
{
    let mut all = Vec::new(alloc);
    'views: for v in views {
        let value = members_value(alloc, v.members())?;
        all.push(value)?;
    }
    Ok(Value::Array(all))
}

// How much was delivered in all views. More than fits into memory can't be kept.
fn delivered_in_all(delivered: &[Vec<Delivered>]) -> Result<u64, NoMemory>
    ensures { IfOk result (λ n. n ≡ sum (map (λ ds. length ds.items) delivered.now)) }
{
    let mut all = 0u64;
    for of_view in delivered {
        let more = of_view.as_slice().len() as u64;
        all = all.checked_add(more).ok_or(NoMemory)?;
    }
    Ok(all)
}

// The object of these members.
fn process_object(
    alloc: Global,
    delivered: u64,
    process: u8,
    views: Value,
) -> Result<Value, NoMemory>
    ensures { IfOk result (λ v. view v ≡ plain.process_object delivered process (view views)) }
{
    let value = json!(in alloc; {"delivered": delivered, "process": process, "views": views})?;
    Ok(value)
}

// A listed process.
fn process_value(alloc: Global, a: &Account) -> Result<Value, NoMemory>
    ensures { IfOk result (λ v. view v ≡ plain.process_data (account a.now)) }
{
    let delivered = delivered_in_all(&a.delivered)?;
    let views = views_value(alloc, &a.views)?;
    process_object(alloc, delivered, a.me.get(), views)
}

// All of them.
#[tactic(auto, using(serde_json::specs::declared::value::Value::the_lemmas))]
fn processes_value(alloc: Global, accounts: &[Account]) -> Result<Value, NoMemory>
    ensures { IfOk result (λ v. view v ≡ plain.array_of plain.process_data (map account accounts.now)) }
{
    let mut all = Vec::new(alloc);
    'accounts: for a in accounts {
        let value = process_value(alloc, a)?;
        all.push(value)?;
    }
    Ok(Value::Array(all))
}

// The object of these members.
fn reported_object(
    alloc: Global,
    first: String,
    kind: u8,
    process: u8,
    second: String,
) -> Result<Value, NoMemory>
    ensures { IfOk result (λ v. view v ≡ plain.reported_object (string_bytes first) kind process (string_bytes second)) }
{
    let value =
        json!(in alloc; {"first": first, "kind": kind, "process": process, "second": second})?;
    Ok(value)
}

// Bytes in hexadecimal.
fn hex_text(alloc: Global, bytes: &[u8]) -> Result<String, NoMemory>
    ensures text { IfOk result (λ s. string_bytes s ≡ encode_lower bytes.now) }
    ensures bytes { IfOk result (λ s. IsBytes bytes.now) }
{
    Ok(encode(alloc, bytes)?)
}

// A conviction.
fn reported_value(alloc: Global, c: &Conviction) -> Result<Value, NoMemory>
    ensures value { IfOk result (λ v. view v ≡ plain.reported_data (reported_of c.now)) }
    ensures bytes { IfOk result (λ v. AreBytes (reported_of c.now)) }
{
    let first = hex_text(alloc, c.first.statement.bytes())?;
    let second = hex_text(alloc, c.second.statement.bytes())?;
    reported_object(alloc, first, c.kind, c.process.get(), second)
}

// All of them.
#[tactic(auto, using(serde_json::specs::declared::value::Value::the_lemmas))]
fn convicted_value(alloc: Global, convicted: &[Conviction]) -> Result<Value, NoMemory>
    ensures value { IfOk result (λ v. view v ≡ plain.array_of plain.reported_data (map reported_of convicted.now)) }
    ensures bytes { IfOk result (λ v. AllByRecursion AreBytes (map reported_of convicted.now)) }
{
    let mut all = Vec::new(alloc);
    'convicted: for c in convicted {
        let value = reported_value(alloc, c)?;
        all.push(value)?;
    }
    Ok(Value::Array(all))
}

// Puts a member after those of smaller names.
fn put_flag(
    members: &mut Map<String, Value>,
    alloc: Global,
    name: &str,
    flag: bool,
) -> Result<(), NoMemory>
    ensures { OnOk result (members_view members.new.entries ≡ with_member name.now (boolean flag) (members_view members.old.entries)) }
{
    put(members, alloc, name, Value::Bool(flag))?;
    Ok(())
}

// The object of these members.
fn findings_object(
    alloc: Global,
    findings: &Findings,
    convicted: Value,
    processes: Value,
) -> Result<Value, NoMemory>
    ensures { IfOk result (λ v. view v
        ≡ plain.findings_object (findings_of findings.now) (view convicted) (view processes)) }
{
    let mut members = Map::new(alloc);
    put_flag(&mut members, alloc, "agree", findings.agree)?;
    put_flag(&mut members, alloc, "bounded", findings.bounded)?;
    put(&mut members, alloc, "convicted", convicted)?;
    put_flag(&mut members, alloc, "honest", findings.honest)?;
    put(&mut members, alloc, "processes", processes)?;
    put_flag(&mut members, alloc, "sound", findings.sound)?;
    Ok(Value::Object(members))
}

/// All that was found.
pub(crate) fn findings_value(alloc: Global, findings: &Findings) -> Result<Value, NoMemory>
    ensures value { IfOk result (λ v. view v ≡ plain.findings_data (findings_of findings.now)) }
    ensures bytes { IfOk result (λ v. AllByRecursion AreBytes (findings_of findings.now).convicted) }
{
    let convicted = convicted_value(alloc, &findings.convicted)?;
    let processes = processes_value(alloc, &findings.accounts)?;
    findings_object(alloc, findings, convicted, processes)
}
