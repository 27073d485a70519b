//! The globals that are not shown.

ghost use Rattle.std.specs.Prelude.{◌≡◌, [], OnOk, OnErr};
ghost use Rattle.wl_objects.specs.Registry.{is_hidden, with_pair, without_pair};

use std::alloc::{AllocError, Global};
use std::collections::BTreeSet;
use std::marker::Model;

/// The pairs of a registry and the name of one of its globals that are not shown.
#[derive(Drop)]
pub(crate) struct HiddenGlobals {
    pairs: BTreeSet<(u32, u32)>,
}

impl Model for HiddenGlobals {
    ghost use Rattle.std.specs.Prelude.{List};
    ghost use Rattle.wl_objects.specs.Registry.{RegistryGlobal};

    ghost Value = { List RegistryGlobal };

    ghost view = { λ hidden. hidden.pairs.keys };
}

impl HiddenGlobals {
    /// No pair. Takes no memory.
    pub(crate) fn new(alloc: Global) -> HiddenGlobals
        ensures { result ≡ [] }
    {
        HiddenGlobals {
            pairs: BTreeSet::new(alloc),
        }
    }

    /// Whether a pair is hidden.
    pub(crate) fn contains(&self, registry: u32, name: u32) -> bool
        ensures { result ≡ is_hidden self.now (registry, name) }
    {
        self.pairs.contains(&(registry, name))
    }

    /// Hides a pair.
    pub(crate) fn hide(&mut self, registry: u32, name: u32) -> Result<(), AllocError>
        ensures ok { OnOk result (self.new ≡ with_pair self.old (registry, name)) }
        ensures err { OnErr result (self.new ≡ self.old) }
    {
        let _ = self.pairs.insert((registry, name))?;
        Ok(())
    }

    /// Shows a pair.
    pub(crate) fn show(&mut self, registry: u32, name: u32)
        ensures { self.new ≡ without_pair self.old (registry, name) }
    {
        let _ = self.pairs.remove(&(registry, name));
    }
}
