mod data;
mod tutorial;
