//! Whose own doing a line of a script is.

ghost use Rattle.std.specs.Prelude.{◌≡◌};
ghost use Rattle.script_peers.specs.Putting.{doer, is_own};

use script_lang::StepKind;
use wp_outside::Side;

/// The peer whose own doing a line is.
fn doer(what: &StepKind) -> Option<Side>
    ensures { result ≡ doer what.now }
{
    match what {
        StepKind::Hex { peer, .. } => Some(*peer),
        StepKind::Say { peer, .. } => Some(*peer),
        StepKind::File { peer, .. } => Some(*peer),
        StepKind::Grow { peer, .. } => Some(*peer),
        StepKind::Fill { peer, .. } => Some(*peer),
        StepKind::Pipe { peer, .. } => Some(*peer),
        StepKind::Give { peer, .. } => Some(*peer),
        StepKind::Put { peer, .. } => Some(*peer),
        StepKind::End { peer, .. } => Some(*peer),
        StepKind::Shut { peer, .. } => Some(*peer),
        _ => None,
    }
}

/// Whether a line is one of this peer's own doing.
pub(crate) fn is_own(side: Side, what: &StepKind) -> bool
    ensures { result ≡ is_own side what.now }
{
    match (side, doer(what)) {
        (Side::Near, Some(Side::Near)) => true,
        (Side::Far, Some(Side::Far)) => true,
        _ => false,
    }
}
