//! Laws of recorded copies: each function does nothing, and its clauses are the law.

ghost use Rattle.copy_laws.specs.GivenLaws.{NoneGivenAtFirst, CallsLeaveGiven, StepsLeaveGiven};
ghost use Rattle.copy_laws.specs.GivenLaws.{LendsLeaveGiven, SendsLeaveGiven, GaveIsCopy};
ghost use Rattle.copy_laws.specs.GivenLaws.{AllAreGiven, GaveIsSettled, MoreIsSettled};
ghost use Rattle.copy_laws.specs.GivenLaws.{SettledHasStood};

/// At first no receipt was given, and each call of a proxy with its records that gives nothing to
/// its peer leaves the copies whose receipts were given.
pub fn calls_leave_given()
    ensures first { NoneGivenAtFirst }
    ensures calls { CallsLeaveGiven }
    ensures steps { StepsLeaveGiven }
    ensures lends { LendsLeaveGiven }
    ensures sends { SendsLeaveGiven }
{}

/// The receipt that is given is that of the next copy of the record, with just the loads of its
/// words; once none waits, these are all copies.
pub fn gave_is_copy()
    ensures gave { GaveIsCopy }
    ensures all { AllAreGiven }
{}

/// Where a peer settles each receipt that it is given, each of these copies is settled; and where
/// what is settled stood, each word of them stood between its copy's low and high.
pub fn settled_has_stood()
    ensures gave { GaveIsSettled }
    ensures more { MoreIsSettled }
    ensures stood { SettledHasStood }
{}
