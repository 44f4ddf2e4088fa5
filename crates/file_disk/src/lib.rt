//! One file of the system's as a disk. What the system says of its files is trusted; that a fault is counted is proved.
#![tactic(auto)]

mod disk;
mod named_file;

pub use disk::FileDisk;
