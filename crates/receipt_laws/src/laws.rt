//! Laws of receipts and of copies: each function does nothing, and its clauses are the law.

ghost use Rattle.receipt_laws.specs.OwnLaws.{OwnAtFirst, EventsKeepOwn, PartsKeepOwn, NeedsOwn};
ghost use Rattle.receipt_laws.specs.OwnLaws.{CallsKeepOwn, StepsKeepOwn, SendsKeepOwn};
ghost use Rattle.receipt_laws.specs.OwnLaws.{LendsKeepOwn, LentIsOwn, BackIsOwn, GivesOwn};
ghost use Rattle.receipt_laws.specs.OwnLaws.{MoreIsOwn};
ghost use Rattle.receipt_laws.specs.OutLaws.{EventsLeave, EventsSame, LentGoesOut, HandedIsIn};
ghost use Rattle.receipt_laws.specs.OutLaws.{CopyIsBack, BackIsAwaited, NoneOutAtFirst};
ghost use Rattle.receipt_laws.specs.OutLaws.{CallsLeave, CallsSame, StepsLeave, LendsLeave};
ghost use Rattle.receipt_laws.specs.OutLaws.{SendsLeave, CallsLend, CallsHand};

use crate::owner::Owner;

/// Each event of a proxy keeps all its receipts own, where a note that its peer puts is own and a
/// copy that is handed back has an own receipt; else it does not.
pub fn events_keep_own<O: Owner>()
    ensures one { EventsKeepOwn O.own }
    ensures row { PartsKeepOwn O.own }
    ensures needs { NeedsOwn O.own }
{}

/// A proxy with empty records has own receipts alone, and each of its calls keeps this.
pub fn calls_keep_own<O: Owner>()
    ensures first { OwnAtFirst O.own }
    ensures calls { CallsKeepOwn O.own }
    ensures steps { StepsKeepOwn O.own }
    ensures sends { SendsKeepOwn O.own }
    ensures lends { LendsKeepOwn O.own }
{}

/// The eye of a copy that is lent is own, so the receipt that is handed back of it is; and an item
/// that the peer is given is own.
pub fn lent_is_own<O: Owner>()
    ensures lent { LentIsOwn O.own }
    ensures back { BackIsOwn O.own }
    ensures gives { GivesOwn O.own }
{}

/// Where an owner gets more, what was own stays so.
pub fn more_is_own<O: Owner, P: Owner>()
    ensures { MoreIsOwn O.own P.own }
{}

/// A copy that is out stays out, and the others where they are, at each event but the one that
/// hands it back; the first that waits goes out where none is.
pub fn events_leave_copies()
    ensures leave { EventsLeave }
    ensures same { EventsSame }
    ensures lent { LentGoesOut }
    ensures handed { HandedIsIn }
{}

/// What is made of a copy that was lent is awaited while that copy is out.
pub fn copy_is_awaited()
    ensures back { CopyIsBack }
    ensures awaited { BackIsAwaited }
{}

/// The same of the calls of a proxy with its records.
pub fn calls_leave_copies()
    ensures first { NoneOutAtFirst }
    ensures leave { CallsLeave }
    ensures same { CallsSame }
    ensures steps { StepsLeave }
    ensures lends { LendsLeave }
    ensures sends { SendsLeave }
    ensures lend { CallsLend }
    ensures hand { CallsHand }
{}
