//! Why a run of both sides stops.

ghost use Rattle.std.specs.Prelude.{◌≡◌};
ghost use Rattle.script_replay.specs.Going.{stop_by};

use side_model::ProxyFault;
use wp_outside::Side;

/// Which side of a pair failed, and for what.
#[derive(Clone, Copy, Debug, PartialEq, Eq)]
pub struct Failure {
    pub side: Side,
    pub fault: ProxyFault,
}

/// Why a run goes no further.
#[derive(Clone, Copy)]
pub enum Stop {
    /// A side failed.
    Failed(Failure),
    /// Memory ran out.
    Memory,
}

/// A fault of a side, as it stops the run.
pub(crate) fn stop_by(side: Side, fault: ProxyFault) -> Stop
    ensures { result ≡ stop_by side fault }
{
    match fault {
        ProxyFault::Memory => Stop::Memory,
        fault => Stop::Failed(Failure { side, fault }),
    }
}
