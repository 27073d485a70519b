//! Worked rows: functions that do nothing, and whose contract is what two runs come to.

ghost use Rattle.pair_laws.specs.MetRows.{RefusesBind, ReceivesAll};

/// Two sides agree, and one of them refuses a frame of the other: a compositor gave an id free that
/// the application still uses.
pub fn refused_bind()
    ensures { RefusesBind }
{}

/// Two sides agree, and are drained behind one message.
pub fn one_received()
    ensures { ReceivesAll }
{}
