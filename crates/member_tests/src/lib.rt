//! Members, what their group is asked, and what is reported of them.
#![tactic(auto)]

#[cfg(test)]
mod findings;
#[cfg(test)]
mod groups;
#[cfg(test)]
mod members;
#[cfg(test)]
mod reports;
#[cfg(test)]
mod sound;
