//! What a member hears and keeps, and what a proof of it shows to others.
#![tactic(auto)]

#[cfg(test)]
mod asked;
#[cfg(test)]
mod chain_lines;
#[cfg(test)]
mod chains;
#[cfg(test)]
mod convictions;
#[cfg(test)]
mod firsts;
#[cfg(test)]
mod group;
#[cfg(test)]
mod multicast;
#[cfg(test)]
mod own;
#[cfg(test)]
mod pairs;
#[cfg(test)]
mod pool;
#[cfg(test)]
mod reliable;
#[cfg(test)]
mod views;
