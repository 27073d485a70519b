//! The objects of a connection and the globals that are not shown.

ghost use Rattle.std.specs.Prelude.{◌≡◌, IfOk, OnErr};
ghost use Rattle.wl_objects.specs.Answering.{Steps, Tracks};
ghost use Rattle.wl_objects.specs.Entries.{live_at};
ghost use Rattle.wl_objects.specs.Tracking.{step};
ghost use Rattle.wl_objects.specs.Registry.{first_state, view};

use crate::hidden::HiddenGlobals;
use crate::passed::{PassFault, Passed};
use crate::reading::read_message;
use crate::tracker::Tracker;
use crate::viewing::{event_in, view_event};
use std::alloc::{AllocError, Global};
use std::marker::Model;
use wl_tables::{Interface, Way};
use wl_wire::Message;

/// The objects of a Wayland connection, live and destroyed, as the messages of both ways make and
/// destroy them, and the globals that are not shown. It holds 65,536 objects at most.
#[derive(Drop)]
pub struct Objects {
    alloc: Global,
    tracked: Tracker,
    hidden: HiddenGlobals,
}

impl Model for Objects {
    ghost use Rattle.wl_objects.specs.Registry.{ObjectsState};

    ghost Value = { ObjectsState };

    ghost view = { λ objects. record { tracked = objects.tracked; hidden = objects.hidden } };
}

impl Objects {
    /// The display alone, as object 1, with no global hidden.
    ///
    /// # Errors
    /// Only where memory runs out.
    pub fn new(alloc: Global) -> Result<Objects, AllocError>
        ensures { IfOk result (λ it. it ≡ first_state) }
    {
        let tracked = Tracker::new(alloc)?;
        Ok(Objects {
            alloc,
            tracked,
            hidden: HiddenGlobals::new(alloc),
        })
    }

    /// Takes in the next message of the connection.
    ///
    /// # Errors
    /// The first that holds: `UnknownObject` where its object isn't there, or is destroyed and the
    /// message is a request; `UnknownOpcode` where the interface has no such message; `Wire` where
    /// the arguments are at fault; `IdRange` where a new id is 0 or outside the sender's range (1
    /// to 0xfeffffff for a client, from 0xff000000 for a server); `IdInUse` where an entry has a
    /// client's new id, or a live object a server's; `UnknownInterface` where `bind` names no
    /// global that is shown; `TooManyObjects` where there would be more than 65,536 entries.
    /// `Memory` where memory runs out. A message that is refused changes nothing.
    pub fn pass(&mut self, way: Way, m: &Message) -> Result<Passed, PassFault>
        ensures exact { Steps result (step way self.old.tracked m.now) self.new.tracked }
        ensures hidden { self.new.hidden ≡ self.old.hidden }
        ensures err { OnErr result (self.new ≡ self.old) }
    {
        let reading = read_message(&self.tracked, way, m)?;
        let args = reading.args.to_list(self.alloc)?;
        self.tracked.follow(way, m.object(), &reading)?;
        Ok(Passed {
            interface: reading.interface,
            opcode: reading.opcode,
            args,
        })
    }

    /// Takes in the next message of the connection as `pass` does, and tells the interface of its
    /// object alone. Memory is taken only for a new object.
    ///
    /// # Errors
    /// Those of `pass`. A message that is refused changes nothing.
    pub fn track(&mut self, way: Way, m: &Message) -> Result<Interface, PassFault>
        ensures exact { Tracks result (step way self.old.tracked m.now) self.new.tracked }
        ensures hidden { self.new.hidden ≡ self.old.hidden }
        ensures err { OnErr result (self.new ≡ self.old) }
    {
        let reading = read_message(&self.tracked, way, m)?;
        self.tracked.follow(way, m.object(), &reading)?;
        Ok(reading.interface)
    }

    /// What is shown of an event that `pass` took last, as an event: the event, a registry's
    /// `global` with its version lowered to the greatest that is carried, or none. None is shown of
    /// a `global` of an interface that is not carried, which is hidden then, and of the
    /// `global_remove` of a global that is hidden, which is so no longer. All other bytes stay as
    /// they came.
    ///
    /// # Errors
    /// Only where memory runs out; nothing is changed then.
    pub fn visible_event(&mut self, m: Message) -> Result<Option<Message>, AllocError>
        ensures ok { IfOk result
            (λ it. view self.old m ≡ record { shown = it; hidden = self.new.hidden }) }
        ensures tracked { self.new.tracked ≡ self.old.tracked }
        ensures err { OnErr result (self.new ≡ self.old) }
    {
        let event = event_in(&self.tracked, &m);
        view_event(&mut self.hidden, m, event)
    }

    /// The interface of the live object with an id, or none where no live object has it.
    pub fn live(&self, id: u32) -> Option<Interface>
        ensures { result ≡ live_at self.now.tracked id }
    {
        self.tracked.live(id)
    }
}
