ghost use Rattle.std.specs.Prelude.{◌<◌};

use journal_defs::Version;
use std::marker::PhantomData;

/// The entries of the journal are being read.
#[derive(Clone, Copy)]
pub struct Reading;

/// The journal takes in turns.
#[derive(Clone, Copy)]
pub struct Writing;

/// A journal on a disk: the gate at which it is, and how long the disk is. The disk is handed to each call; the journal keeps
/// none of its bytes.
#[derive(Drop)]
pub struct Journal<S> {
    pub(crate) gate: u64,
    pub(crate) len: u64,
    pub(crate) version: Version,
    pub(crate) state: PhantomData<S>,
    pub ghost within: { gate < len },
}
