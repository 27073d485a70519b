//! Laws of the wire format: each function does nothing, and its clause is the law.

ghost use Rattle.wl_wire.specs.WireLaws.{FirstWaits, FirstFaults, FirstGives, FaultStays, CutAgrees, CutJoins, CutStops, CutMessage, CutNothing, CutGoesOn, CutAppends, JoinedCuts, CutFaultStays};

/// What stands at the front of a stream is a message, the fault of a size, or less than a message.
pub fn front_is_decided()
    ensures waits { FirstWaits }
    ensures faults { FirstFaults }
    ensures gives { FirstGives }
{}

/// A fault at the front stays, whatever is fed behind.
pub fn fault_stays()
    ensures front { FaultStays }
    ensures cut { CutFaultStays }
{}

/// Bytes are cut into messages in one way, and the messages and the rest are the bytes.
pub fn cut_is_unique()
    ensures agrees { CutAgrees }
    ensures joins { CutJoins }
    ensures stops { CutStops }
{}

/// How the cut of bytes follows from the cuts of their parts.
pub fn cut_by_parts()
    ensures message { CutMessage }
    ensures nothing { CutNothing }
    ensures goes_on { CutGoesOn }
    ensures appends { CutAppends }
{}

/// Messages that are joined are cut into just themselves.
pub fn joined_is_cut()
    ensures { JoinedCuts }
{}
