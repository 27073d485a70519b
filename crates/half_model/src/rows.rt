//! Worked rows: what a side makes of a few messages, each computed from the messages' bytes.

ghost use Rattle.half_model.specs.CauseRows.{FrameCauses, MessageCauses, NoteCauses};
ghost use Rattle.half_model.specs.FileRows.{GoneBuffers, SaidSizes, Waiting};
ghost use Rattle.half_model.specs.FillRows.{DamageEdges, GrownFile, LateBuffer};
ghost use Rattle.half_model.specs.FillRows.{ReturningBuffer, RotatedDamage, ScaledDamage};
ghost use Rattle.half_model.specs.JobRows.{AwaitedRows, GroupRows, LentRows};
ghost use Rattle.half_model.specs.PairRows.{KeymapRow, PipeRow, ShutPipeRow};
ghost use Rattle.half_model.specs.PipeRows.{DroppedRows, EndRows, ReaderRows, WriterRows};
ghost use Rattle.half_model.specs.Rows.{TwelveFrames};

/// A file, its pool, a buffer and one commit make twelve frames, the FILL before the commit.
pub fn twelve_frames()
    ensures { TwelveFrames }
{}

/// A file grows before the request that says so, and one FILL goes over both of its segments.
pub fn grown_file()
    ensures { GrownFile }
{}

/// Damage of a surface that lies turned by 90 degrees.
pub fn rotated_damage()
    ensures { RotatedDamage }
{}

/// Damage of a surface that is scaled by two.
pub fn scaled_damage()
    ensures { ScaledDamage }
{}

/// Damage with a width below 0, and damage that goes beyond 32 bits.
pub fn damage_edges()
    ensures { DamageEdges }
{}

/// A buffer that comes back after seven commits has its damaged rows filled, and after eight all.
pub fn returning_buffer()
    ensures seven { ReturningBuffer }
    ensures eight { LateBuffer }
{}

/// A keymap: all blocks of its told size are filled, and the application has them before the event.
pub fn keymap_row()
    ensures { KeymapRow }
{}

/// A pipe: what the compositor writes and its closing reach the application.
pub fn pipe_row()
    ensures { PipeRow }
{}

/// A pipe that the application shuts: nothing that is written to it makes a frame any more.
pub fn shut_pipe_row()
    ensures { ShutPipeRow }
{}

/// Which size of a file counts: the greatest that was said, with one below 0 as 0.
pub fn said_sizes()
    ensures { SaidSizes }
{}

/// Nothing is due of a buffer that is gone when its surface is committed.
pub fn gone_buffers()
    ensures { GoneBuffers }
{}

/// Handles and notes serve messages that end behind them.
pub fn waiting_items()
    ensures { Waiting }
{}

/// Copies are lent in order, taken back as what they are, and make a group in order.
pub fn copies_out()
    ensures lent { LentRows }
    ensures awaited { AwaitedRows }
    ensures group { GroupRows }
{}

/// Which items and frames of a pipe are refused at its two ends.
pub fn pipe_ends()
    ensures writer { WriterRows }
    ensures dropped { DroppedRows }
    ensures reader { ReaderRows }
    ensures end { EndRows }
{}

/// Where several causes would refuse a message, the first of them: tracking, the handle, the
/// limits, the note.
pub fn message_causes()
    ensures order { MessageCauses }
    ensures notes { NoteCauses }
{}

/// Where several causes would refuse a frame, the first of them.
pub fn frame_causes()
    ensures { FrameCauses }
{}
