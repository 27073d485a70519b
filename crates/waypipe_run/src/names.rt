//! The names by which the program prints causes.
ghost use Rattle.std.specs.Prelude.{◌≡◌, string_bytes, IfOk};
ghost use Rattle.waypipe_run.specs.Names.{script_name, wire_name, object_name, peer_name};
ghost use Rattle.waypipe_run.specs.Names.{limit_name, side_name, reader_name, frame_name};
ghost use Rattle.waypipe_run.specs.Names.{frame_detail};

use crate::status::Reader;
use half_model::{Limit, PeerCause};
use script_lang::ScriptCause;
use std::alloc::{AllocError, Global};
use transfer_frames::FrameCause;
use wl_wire::{ObjectFault, WireFault};
use wp_outside::Side;

/// The name of a script's cause.
pub fn script_name(cause: ScriptCause) -> &'static str
    ensures { result.now ≡ script_name cause }
{
    match cause {
        ScriptCause::Text => "Text",
        ScriptCause::Word => "Word",
        ScriptCause::Form => "Form",
        ScriptCause::Number => "Number",
        ScriptCause::Message => "Message",
        ScriptCause::Name => "Name",
        ScriptCause::NotBuilt => "NotBuilt",
    }
}

/// The name of a fault of the wire format.
pub fn wire_name(fault: WireFault) -> &'static str
    ensures { result.now ≡ wire_name fault }
{
    match fault {
        WireFault::SizeSmall => "SizeSmall",
        WireFault::SizeOdd => "SizeOdd",
        WireFault::ArgShort => "ArgShort",
        WireFault::ArgLong => "ArgLong",
        WireFault::StringNoNul => "StringNoNul",
        WireFault::NullNotAllowed => "NullNotAllowed",
    }
}

/// The name of a fault of objects.
pub fn object_name(fault: ObjectFault) -> &'static str
    ensures { result.now ≡ object_name fault }
{
    match fault {
        ObjectFault::UnknownObject => "UnknownObject",
        ObjectFault::UnknownOpcode => "UnknownOpcode",
        ObjectFault::IdInUse => "IdInUse",
        ObjectFault::IdRange => "IdRange",
        ObjectFault::UnknownInterface => "UnknownInterface",
        ObjectFault::Wire(fault) => wire_name(fault),
        ObjectFault::TooManyObjects => "TooManyObjects",
    }
}

/// The name of a peer's cause, the innermost alone.
pub fn peer_name(cause: PeerCause) -> &'static str
    ensures { result.now ≡ peer_name cause }
{
    match cause {
        PeerCause::Object(fault) => object_name(fault),
        PeerCause::HandleMissing => "HandleMissing",
        PeerCause::HandleKind => "HandleKind",
        PeerCause::NoteMissing => "NoteMissing",
        PeerCause::PipeUnknown => "PipeUnknown",
    }
}

/// The name of a limit.
pub fn limit_name(which: Limit) -> &'static str
    ensures { result.now ≡ limit_name which }
{
    match which {
        Limit::File => "file",
        Limit::Files => "files",
        Limit::Trail => "trail",
        Limit::Connections => "connections",
        Limit::Input => "input",
        Limit::Lines => "lines",
    }
}

/// The name of the peer beside a side.
pub fn side_name(side: Side) -> &'static str
    ensures { result.now ≡ side_name side }
{
    match side {
        Side::Near => "application",
        Side::Far => "compositor",
    }
}

/// Whose bytes a frame stands in.
pub fn reader_name(reader: Reader) -> &'static str
    ensures { result.now ≡ reader_name reader }
{
    match reader {
        Reader::Near => "near",
        Reader::Far => "far",
        Reader::Input => "input",
    }
}

/// The name of a cause for which a frame is refused, without what the cause carries.
#[tactic(auto, unfolding(crate::specs::Names::frame_name))]
pub fn frame_name(cause: FrameCause) -> &'static str
    ensures { result.now ≡ frame_name cause }
{
    match cause {
        FrameCause::SizeSmall => "SizeSmall",
        FrameCause::SizeLarge => "SizeLarge",
        FrameCause::UnknownType => "UnknownType",
        FrameCause::LeftOut(_) => "LeftOut",
        FrameCause::BodyLength => "BodyLength",
        FrameCause::Padding => "Padding",
        FrameCause::RidZero => "RidZero",
        FrameCause::FillRange => "FillRange",
        FrameCause::MessageCut => "MessageCut",
        FrameCause::RestartMissing => "RestartMissing",
        FrameCause::RestartAgain => "RestartAgain",
        FrameCause::Token => "Token",
        FrameCause::Connection => "Connection",
        FrameCause::RestartBehind => "RestartBehind",
        FrameCause::RestartAhead => "RestartAhead",
        FrameCause::AckBehind => "AckBehind",
        FrameCause::AckAhead => "AckAhead",
        FrameCause::AfterClose => "AfterClose",
        FrameCause::CountSpent => "CountSpent",
        FrameCause::RidInUse => "RidInUse",
        FrameCause::RidUnknown => "RidUnknown",
        FrameCause::ExtendSmaller => "ExtendSmaller",
        FrameCause::FillOutside => "FillOutside",
        FrameCause::FileTooLarge => "FileTooLarge",
        FrameCause::PipeUnknown => "PipeUnknown",
        FrameCause::PipeShut => "PipeShut",
        FrameCause::RidCount => "RidCount",
        FrameCause::PeerMessage(_) => "PeerMessage",
        FrameCause::FilesTooLarge => "FilesTooLarge",
    }
}

/// What a cause carries, behind a space; nothing where it carries nothing.
pub fn frame_detail(alloc: Global, cause: FrameCause) -> Result<String, AllocError>
    ensures { IfOk result (λ text. string_bytes text ≡ frame_detail cause) }
{
    match cause {
        FrameCause::LeftOut(kind) => format!(in alloc; " {kind}"),
        FrameCause::PeerMessage(fault) => {
            let name = object_name(fault);
            format!(in alloc; " {name}")
        }
        _ => Ok(String::new(alloc)),
    }
}
