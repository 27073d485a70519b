//! What both peers own.

ghost use Rattle.std.specs.Prelude.{◌≡◌, None, OnOk};
ghost use Rattle.script_lang.specs.Names.{no_names, naming, fault_by, after_by};

use crate::causes::ScriptCause;
use crate::names::PeerNames;
use crate::steps::StepKind;
use std::alloc::{AllocError, Global};
use std::marker::Model;
use wp_outside::Side;

/// The files and pipes of the application and of the compositor.
#[derive(Drop)]
pub struct Peers {
    near: PeerNames,
    far: PeerNames,
}

impl Model for Peers {
    ghost use Rattle.script_lang.specs.Names.{Names};

    ghost Value = { Names };

    ghost view = { λ peers. record { near = peers.near; far = peers.far } };
}

impl Peers {
    /// Peers that own nothing. Takes no memory.
    pub fn new(alloc: Global) -> Peers
        ensures { result ≡ no_names }
    {
        Peers {
            near: PeerNames::new(alloc),
            far: PeerNames::new(alloc),
        }
    }

    /// Why a line can't name what it names, where it can't.
    pub fn fault(&self, what: &StepKind) -> Option<ScriptCause>
        ensures { result ≡ fault_by self.now (naming what.now) what.now }
    {
        match naming(what) {
            Some(Side::Near) => self.near.fault(what),
            Some(Side::Far) => self.far.fault(what),
            None => None,
        }
    }

    /// Keeps what a line makes, which may name what it names.
    ///
    /// # Errors
    /// Only where memory runs out.
    pub fn keep(&mut self, what: &StepKind) -> Result<(), AllocError>
        requires { fault_by self.old (naming what.now) what.now ≡ None }
        ensures { OnOk result (self.new ≡ after_by self.old (naming what.now) what.now) }
    {
        match naming(what) {
            Some(Side::Near) => self.near.keep(what),
            Some(Side::Far) => self.far.keep(what),
            None => Ok(()),
        }
    }
}

/// The peer whose own files and pipes a line names.
fn naming(what: &StepKind) -> Option<Side>
    ensures { result ≡ naming what.now }
{
    match what {
        StepKind::Say { peer, .. } => Some(*peer),
        StepKind::File { peer, .. } => Some(*peer),
        StepKind::Grow { peer, .. } => Some(*peer),
        StepKind::Fill { peer, .. } => Some(*peer),
        StepKind::Pipe { peer, .. } => Some(*peer),
        StepKind::Give { peer, .. } => Some(*peer),
        StepKind::Shut { peer, .. } => Some(*peer),
        _ => None,
    }
}
