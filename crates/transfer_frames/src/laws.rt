//! Laws of the grammar: functions that do nothing, and whose contract is the law.

ghost use Rattle.transfer_frames.specs.Laws.{SpelledIsRead, ReadIsSpelled, NoneBegins, OneRow};
ghost use Rattle.transfer_frames.specs.Laws.{FrontOfFrame, FrameOfFront, FrontStays, PartWaits};
ghost use Rattle.transfer_frames.specs.Laws.{SpellingLength, MessageFits};

use wl_wire::joined_is_cut;

/// What is written is read again, and what is read was written so, each byte of it.
pub fn read_is_spelled()
    ensures again { SpelledIsRead }
    ensures so { ReadIsSpelled }
{}

/// No frame's bytes begin another's, so a stream is one row of frames.
pub fn row_is_unique()
    ensures begins { NoneBegins }
    ensures row { OneRow }
{}

/// What stands at the front of a stream is decided there, and a part of a frame decides nothing.
pub fn front_is_decided()
    ensures spelled { FrontOfFrame }
    ensures found { FrameOfFront }
    ensures stays { FrontStays }
    ensures waits { PartWaits }
{}

/// How many bytes a frame takes.
pub fn length_is_bounded()
    ensures { SpellingLength }
{}

/// One whole message makes a frame.
pub fn message_fits()
    ensures { MessageFits }
{
    joined_is_cut();
}
