//! The calls of a side's connection.

ghost use Rattle.std.specs.Prelude.{◌≡◌, ◌<◌, ◌≤◌, [], true, false, length, take, OnOk, IfErr};
ghost use Rattle.pair_runs.specs.Linking.{written};
ghost use Rattle.pair_runs.specs.Whys.{RefusesPiece};
ghost use Rattle.pair_runs.specs.Sides.{rows_of, last_number};
ghost use Rattle.script_sides.specs.Answering.{Leaves, Stays};
ghost use Rattle.script_sides.specs.Linked.{LinesUp, UpIsLimited, LeavesUp, Hears, HasNoFront};
ghost use Rattle.script_sides.specs.Ready.{IsReady};
ghost use Rattle.script_sides.specs.Sided.{state_of, is_up, lent_of, room_of};

use super::ScriptSide;
use side_model::ProxyFault;

impl ScriptSide {
    /// A connection comes up, of a greater number than those before.
    ///
    /// # Errors
    /// `Connections` exactly where the number is above 4,096; else the limit of the records where a
    /// line more is too heavy, or want of memory.
    pub fn link_up(&mut self, connection: u32) -> Result<(), ProxyFault>
        requires ready { IsReady self.old }
        requires down { is_up self.old ≡ false }
        requires later { last_number (rows_of (state_of self.old)) < connection }
        ensures lines { LinesUp connection (state_of self.old) (state_of self.new) result }
        ensures limits { UpIsLimited connection result }
        ensures leaves { LeavesUp result self.old self.new }
        ensures wire { self.new.peer.wire ≡ self.old.peer.wire }
    {
        let answer = self.trail.link_up(connection);
        self.trail.stands();
        answer
    }

    /// The connection goes down, if one is up. Takes no memory.
    pub fn link_down(&mut self)
        requires { IsReady self.old }
        ensures same { state_of self.new ≡ state_of self.old }
        ensures ready { IsReady self.new }
        ensures peer { self.new.peer ≡ self.old.peer }
        ensures down { is_up self.new ≡ false }
    {
        self.trail.link_down();
        self.trail.stands();
    }

    /// Makes room in the records for the bytes that are to be written next.
    ///
    /// # Errors
    /// The limit of the records where these bytes are too heavy, or want of memory.
    pub fn make_room(&mut self) -> Result<(), ProxyFault>
        requires { IsReady self.old }
        ensures same { state_of self.new ≡ state_of self.old }
        ensures lent { OnOk result (lent_of self.new ≡ lent_of self.old) }
        ensures room { OnOk result (room_of self.new ≡ length (lent_of self.new)) }
        ensures refuses { IfErr result (λ fault. RefusesPiece fault
            (state_of self.new).book.trail) }
        ensures leaves { Leaves result self.old self.new }
        ensures peer { self.new.peer ≡ self.old.peer }
    {
        let answer = self.trail.make_room();
        self.trail.stands();
        answer
    }

    /// The bytes that are to be written next. None are, where a connection is up, exactly where
    /// there is nothing to be sent. Takes no memory.
    pub fn lent(&self) -> &[u8]
        ensures bytes { result.now ≡ lent_of self.now }
        ensures nothing { IsReady self.now → is_up self.now ≡ true → result.now ≡ []
            → HasNoFront (state_of self.now) }
    {
        self.trail.lent()
    }

    /// So many of the bytes that were lent are written. Takes no memory.
    pub fn sent(&mut self, count: usize)
        requires ready { IsReady self.old }
        requires up { is_up self.old ≡ true }
        requires room { count ≤ room_of self.old }
        ensures written { state_of self.new
            ≡ written (take count (lent_of self.old)) (state_of self.old) }
        ensures stays { Stays self.old self.new }
        ensures peer { self.new.peer ≡ self.old.peer }
    {
        self.trail.link_sent(count);
        self.trail.stands();
    }

    /// Takes a piece, of any length, of what comes on the connection.
    ///
    /// # Errors
    /// Those of the proxy, or want of memory.
    pub fn came(&mut self, piece: &[u8]) -> Result<(), ProxyFault>
        requires ready { IsReady self.old }
        requires up { is_up self.old ≡ true }
        ensures hears { Hears piece.now (state_of self.old) (state_of self.new) result }
        ensures leaves { Leaves result self.old self.new }
        ensures wire { self.new.peer.wire ≡ self.old.peer.wire }
    {
        let answer = self.trail.feed_link(piece);
        self.trail.stands();
        answer?;
        match self.give() {
            Ok(()) => Ok(()),
            Err(_) => Err(ProxyFault::Memory),
        }
    }
}
