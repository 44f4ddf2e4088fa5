//! A replicated store, and the records that speak of it.
mod commands;
mod questions;
mod records;
mod words;
