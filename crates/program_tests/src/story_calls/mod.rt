pub(crate) mod data;
mod stories;
