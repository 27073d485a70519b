//! Why a script is not read.

ghost use Rattle.std.specs.Prelude.{◌≡◌};
ghost use Rattle.script_lang.specs.declared.causes.ScriptRead.TheVariants.{Memory};

use std::alloc::AllocError;

/// Why a line is no line of a script, in the order in which it is tested.
#[derive(Clone, Copy, Debug, PartialEq, Eq)]
pub enum ScriptCause {
    /// A byte that is no visible ASCII character and no space.
    Text,
    /// An unknown word.
    Word,
    /// A wrong count of fields, or a field of another kind.
    Form,
    /// A number outside its range.
    Number,
    /// No message of the Wayland protocol.
    Message,
    /// A file or a pipe that is unknown or used before, or words past a file's end.
    Name,
    /// A line that is read but not run. Reading a script never answers it.
    NotBuilt,
}

/// Why a script was not read.
#[derive(Clone, Copy, Debug, PartialEq, Eq)]
pub enum ScriptRead {
    /// The first line that is no line of a script, counted from 1, and why.
    Fault { line: u32, cause: ScriptCause },
    /// There are more than 200,000 lines.
    Lines,
    /// Memory ran out.
    Memory,
}

impl From<AllocError> for ScriptRead {
    ghost from_gives = { λ _ fault. fault ≡ Memory };

    fn from(_: AllocError) -> ScriptRead {
        ScriptRead::Memory
    }
}
