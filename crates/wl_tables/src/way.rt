//! Which way a message goes.

ghost use Rattle.std.specs.Prelude.{◌≡◌};
ghost use Rattle.wl_tables.specs.Ways.{is_event, own_way};

use wp_outside::Side;

/// Which way a message goes.
#[derive(Clone, Copy, Debug, PartialEq, Eq)]
pub enum Way {
    /// From the client to the compositor: up.
    Request,
    /// From the compositor to the client: down.
    Event,
}

impl Way {
    /// The way of the messages that the peer beside a side sends: the application, beside the near
    /// one, sends requests, and the compositor events.
    pub fn of_peer(peer: Side) -> Way
        ensures { result ≡ own_way peer }
    {
        match peer {
            Side::Near => Way::Request,
            Side::Far => Way::Event,
        }
    }

    /// Whether messages of this way are events.
    pub fn is_event(self) -> bool
        ensures { result ≡ is_event self }
    {
        match self {
            Way::Request => false,
            Way::Event => true,
        }
    }
}
