//! Streams, disks and links, in memory and real.
#![tactic(auto)]

#[cfg(test)]
mod base;
#[cfg(test)]
mod datagrams;
#[cfg(test)]
mod devices;
#[cfg(test)]
mod disk;
#[cfg(test)]
mod files;
#[cfg(test)]
mod udp;
