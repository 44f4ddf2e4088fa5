ghost use Rattle.std.specs.Prelude.{◌≡◌, ◌≢◌, ◌≤◌, Ok, Err, IfOk, IfErr};
ghost use Rattle.std.specs.IoError.{error_kind};
ghost use Rattle.std.specs.declared.io.ErrorKind.TheVariants.{WouldBlock};
ghost use Rattle.rp_base.specs.Causes.{Rose};
ghost use Rattle.rp_base.specs.declared.link.Got.TheVariants.{Nothing, Datagram};

use rp_base::{Failed, Got};
use std::io;
use std::io::ErrorKind;

// One fault more.
pub(crate) fn fault(faults: &mut u64) -> Failed
    ensures rose { Rose faults.old faults.new }
    ensures later { faults.old ≤ faults.new }
{
    *faults = faults.saturating_add(1);
    Failed
}

// A call that would wait finds no datagram; each other error stays one.
pub(crate) fn got(outcome: io::Result<usize>) -> io::Result<Got>
    ensures found { IfOk outcome (λ n. result ≡ Ok (Datagram n)) }
    ensures waits { IfErr outcome (λ e. error_kind e ≡ WouldBlock → result ≡ Ok Nothing) }
    ensures fails { IfErr outcome (λ e. error_kind e ≢ WouldBlock → result ≡ Err e) }
{
    match outcome {
        Ok(n) => Ok(Got::Datagram(n)),
        Err(e) if e.kind() == ErrorKind::WouldBlock => Ok(Got::Nothing),
        Err(e) => Err(e),
    }
}
