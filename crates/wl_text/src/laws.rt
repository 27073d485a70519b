//! Laws of the text: each function does nothing, and its clause is the law.

ghost use Rattle.wl_text.specs.TextLaws.{ReadIsText, ReadPrints, PrintedIsRead, OneMessage};
ghost use Rattle.wl_text.specs.TextLaws.{TextIsVisible, ReadIsVisible};

use wl_tables::{interface_tells_name, opcode_tells_name};

/// A line is read as a message exactly where it is the text of that message, and what is read
/// prints as the line.
pub fn read_is_text()
    ensures exact { ReadIsText }
    ensures prints { ReadPrints }
{
    opcode_tells_name();
    interface_tells_name();
}

/// A message is read again from its text, with zeros as padding.
pub fn printed_is_read()
    ensures { PrintedIsRead }
{
    opcode_tells_name();
    interface_tells_name();
}

/// A line is the text of one message at most.
pub fn line_is_one_message()
    ensures { OneMessage }
{
    opcode_tells_name();
    interface_tells_name();
}

/// The text of a message is visible ASCII, so it is one line; and so is each line that is read.
pub fn text_is_visible()
    ensures text { TextIsVisible }
    ensures read { ReadIsVisible }
{
    opcode_tells_name();
    interface_tells_name();
}
