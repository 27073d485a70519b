//! The objects of a connection by their ids.

ghost use Rattle.std.specs.Prelude.{◌≡◌, IfOk, OnErr, Some};
ghost use Rattle.wl_objects.specs.Answering.{Leaves};
ghost use Rattle.wl_objects.specs.Tracking.{followed};
ghost use Rattle.wl_objects.specs.Entries.{first_objects, entry_at, is_registry, live_at};
ghost use Rattle.wl_objects.specs.Entries.{addressed, is_client_id, is_in_range, is_in_use};
ghost use Rattle.wl_objects.specs.Entries.{has_room, with_known, with_new, with_destroyed};
ghost use Rattle.wl_objects.specs.Entries.{with_deleted};

use crate::effects::{deleted_of, made_by_message};
use crate::entry::{Entry, NewObject};
use crate::passed::PassFault;
use crate::reading::Reading;
use std::alloc::{AllocError, Global};
use std::collections::BTreeMap;
use std::marker::Model;
use wl_tables::{Interface, Way};
use wl_wire::ObjectFault;

/// How many entries there may be.
const MOST_OBJECTS: usize = 65_536;

/// Server ids begin here.
const FIRST_SERVER_ID: u32 = 0xff00_0000;

/// The objects of a connection by their ids, live and destroyed.
#[derive(Drop)]
pub(crate) struct Tracker {
    entries: BTreeMap<u32, Entry>,
}

impl Model for Tracker {
    ghost use Rattle.wl_objects.specs.Entries.{Tracked};

    ghost Value = { Tracked };

    ghost view = { λ tracker. tracker.entries.entries };
}

/// Whether a client makes this id.
fn is_client_id(id: u32) -> bool
    ensures { result ≡ is_client_id id }
{
    1 <= id && id < FIRST_SERVER_ID
}

/// Whether the sender of a message may make this id.
fn is_in_range(way: Way, id: u32) -> bool
    ensures { result ≡ is_in_range way id }
{
    match way {
        Way::Request => is_client_id(id),
        Way::Event => FIRST_SERVER_ID <= id,
    }
}

/// Whether what stands at an id keeps it from being made.
fn is_in_use(way: Way, entry: Option<Entry>) -> bool
    ensures { result ≡ is_in_use way entry }
{
    match entry {
        Some(entry) => match way {
            Way::Request => true,
            Way::Event => entry.live,
        },
        None => false,
    }
}

impl Tracker {
    /// The display alone.
    pub(crate) fn new(alloc: Global) -> Result<Tracker, AllocError>
        ensures { IfOk result (λ it. it ≡ first_objects) }
    {
        let mut entries = BTreeMap::new(alloc);
        let display = Entry {
            interface: Interface::WlDisplay,
            live: true,
        };
        let _ = entries.insert(1, display)?;
        Ok(Tracker { entries })
    }

    /// What stands at an id.
    pub(crate) fn entry(&self, id: u32) -> Option<Entry>
        ensures { result ≡ entry_at self.now id }
    {
        self.entries.get(&id).copied()
    }

    /// Whether a registry stands at an id.
    pub(crate) fn is_registry(&self, id: u32) -> bool
        ensures { result ≡ is_registry (entry_at self.now id) }
    {
        match self.entry(id) {
            Some(entry) => matches!(entry.interface, Interface::WlRegistry),
            None => false,
        }
    }

    /// The interface of the live object with an id.
    pub(crate) fn live(&self, id: u32) -> Option<Interface>
        ensures { result ≡ live_at self.now id }
    {
        match self.entry(id) {
            Some(entry) => if entry.live {
                Some(entry.interface)
            } else {
                None
            },
            None => None,
        }
    }

    /// What stands at an id, if a message may be for it.
    pub(crate) fn addressed(&self, way: Way, id: u32) -> Option<Entry>
        ensures { result ≡ addressed way self.now id }
    {
        match self.entry(id) {
            Some(entry) => match way {
                Way::Request => if entry.live { Some(entry) } else { None },
                Way::Event => Some(entry),
            },
            None => None,
        }
    }

    /// Whether a new object may enter at an id.
    fn has_room(&self, id: u32) -> bool
        ensures { result ≡ has_room self.now id }
    {
        self.entries.contains_key(&id) || self.entries.len() < MOST_OBJECTS
    }

    /// Puts a live object at an id, where there is room.
    fn put_live(&mut self, id: u32, interface: Interface) -> Result<(), PassFault>
        ensures exact { Leaves result (with_known self.old id (Some interface)) self.new }
        ensures err { OnErr result (self.new ≡ self.old) }
    {
        if !self.has_room(id) {
            return Err(PassFault::Object(ObjectFault::TooManyObjects));
        }
        let entry = Entry {
            interface,
            live: true,
        };
        match self.entries.insert(id, entry) {
            Ok(_) => Ok(()),
            Err(_) => Err(PassFault::Memory),
        }
    }

    /// Takes in what a message of an object says: its new object enters, its object is destroyed
    /// where the table says so, and `delete_id` gives an id free.
    pub(crate) fn follow(
        &mut self,
        way: Way,
        object: u32,
        reading: &Reading,
    ) -> Result<(), PassFault>
        ensures exact { Leaves result (followed way self.old object reading.now) self.new }
        ensures err { OnErr result (self.new ≡ self.old) }
    {
        self.admit_made(way, made_by_message(way, reading))?;
        self.destroy(reading.destroys, object);
        self.delete(deleted_of(way, reading));
        Ok(())
    }

    /// Takes in a new object.
    fn admit(&mut self, way: Way, new: NewObject) -> Result<(), PassFault>
        ensures exact { Leaves result (with_new way self.old (Some new)) self.new }
        ensures err { OnErr result (self.new ≡ self.old) }
    {
        if !is_in_range(way, new.id) {
            return Err(PassFault::Object(ObjectFault::IdRange));
        }
        if is_in_use(way, self.entry(new.id)) {
            return Err(PassFault::Object(ObjectFault::IdInUse));
        }
        match new.interface {
            Some(interface) => self.put_live(new.id, interface),
            None => Err(PassFault::Object(ObjectFault::UnknownInterface)),
        }
    }

    /// Takes in the new object of a message, if it makes one.
    fn admit_made(&mut self, way: Way, new: Option<NewObject>) -> Result<(), PassFault>
        ensures exact { Leaves result (with_new way self.old new) self.new }
        ensures err { OnErr result (self.new ≡ self.old) }
    {
        match new {
            Some(new) => self.admit(way, new),
            None => Ok(()),
        }
    }

    /// Marks the object of a message as destroyed, if the message says so.
    fn destroy(&mut self, destroys: bool, id: u32)
        ensures { self.new ≡ with_destroyed destroys id self.old }
    {
        if destroys {
            if let Some(entry) = self.entries.get_mut(&id) {
                entry.live = false;
            }
        }
    }

    /// Gives a client's id free, if the message says so.
    fn delete(&mut self, deleted: Option<u32>)
        ensures { self.new ≡ with_deleted deleted self.old }
    {
        if let Some(id) = deleted {
            if is_client_id(id) {
                let _ = self.entries.remove(&id);
            }
        }
    }
}
