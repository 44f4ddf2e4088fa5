//! The time of a pool that hears as many claims as the word says, in nanoseconds: of making a claim and `take`, of making it and
//! checking its signature alone, which hashes nothing, of `certificate`, and of the placed length with one of the placed batches; and the
//! bytes of a claim's statement and signature. In small 1,000 claims are heard.
#![tactic(auto)]

mod claims;
mod hearing;
mod summing;
mod timing;

use anyhow::{Result, anyhow};
use std::time::CpuClock;
use timing::{Hearer, times};

/// How many claims are heard where no time is printed.
const FEW: u32 = 1_000;

/// Hears a few claims, and asks for certificates and places.
pub fn once(rt: &(impl Print + CpuClock + AllocGlobal)) -> Result<()> {
    let mut hearer = Hearer::new(rt.alloc())?;
    let heard = hearer.hear_all(rt, FEW)?;
    let claims = heard.claims;
    let certificates = hearer.certificates(FEW, 100);
    let places = hearer.places();
    println!(rt; "{claims} claims heard, {certificates} of 200 certificates, {places} places")?;
    Ok(())
}

/// Prints the times of a pool that hears as many claims as the word says.
pub fn times_of(rt: &(impl Print + CpuClock + AllocGlobal), words: &[String]) -> Result<()> {
    match words.first().and_then(|word| word.parse().ok()) {
        Some(claims) => times(rt, claims),
        None => Err(anyhow!("the word is a number of claims, 101 to 103,424")),
    }
}
