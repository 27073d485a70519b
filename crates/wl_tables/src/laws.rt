//! Laws of the table: each function does nothing, and its clause is the law.

ghost use Rattle.wl_tables.specs.Laws.{OpcodeTellsName, InterfaceTellsName};

/// `opcode_of` is the inverse of `message_name`.
pub fn opcode_tells_name()
    ensures { OpcodeTellsName }
{}

/// `interface_of` is the inverse of `interface_name`.
pub fn interface_tells_name()
    ensures { InterfaceTellsName }
{}
