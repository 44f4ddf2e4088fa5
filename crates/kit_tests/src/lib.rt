//! Words, command lines and kits.
#![tactic(auto)]

#[cfg(test)]
mod commands;
#[cfg(test)]
mod fronts;
#[cfg(test)]
mod hosted;
#[cfg(test)]
mod inputs;
#[cfg(test)]
mod kits;
#[cfg(test)]
mod stores;
#[cfg(test)]
mod texts;
