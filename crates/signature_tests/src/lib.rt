//! Keys and signatures compared with another program's.
#![tactic(auto)]

#[cfg(test)]
mod lanes;
#[cfg(test)]
mod levels;
#[cfg(test)]
mod ots;
#[cfg(test)]
mod schemes;
#[cfg(test)]
mod trees;
