//! What a journal does with ample memory: in memory, stopped at each call of its disk, and in a real file.
#![tactic(auto)]

#[cfg(test)]
mod files;
#[cfg(test)]
mod lost;
#[cfg(test)]
mod runs;
#[cfg(test)]
mod tests;
