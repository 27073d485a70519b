//! Laws of the arguments: each function does nothing, and its clause is the law.

ghost use Rattle.wl_wire.specs.ArgFaultCases.{FaultIsTold};
ghost use Rattle.wl_wire.specs.ArgLaws.{ReadsInOneWay, GoodIsSpelled, BuiltIsRead, ReadIsBuilt};

/// Bytes have no fault exactly where arguments spell them, and then one list of arguments alone
/// does.
pub fn args_are_unique()
    ensures one_way { ReadsInOneWay }
    ensures good { GoodIsSpelled }
{}

/// The fault that reading tells is that of the first argument at fault, or that bytes are left
/// behind good ones.
pub fn fault_is_told()
    ensures { FaultIsTold }
{}

/// Arguments that fit a signature are read again from the message that is built of them.
pub fn built_is_read()
    ensures { BuiltIsRead }
{}

/// The message that is built of the arguments that were read is the message with zeros as padding.
pub fn read_is_built()
    ensures { ReadIsBuilt }
{}
