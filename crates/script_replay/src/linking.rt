//! The moves of the link.

ghost use Rattle.std.specs.Prelude.{◌≡◌, ℕ, ◌<◌, false, [], ◌∷◌, length};
ghost use Rattle.pair_runs.specs.Moves.{Connect, ConnectIfHeld, Break, Push, Pull, Spoil};
ghost use Rattle.script_replay.specs.Going.{IfStops, Goes};
ghost use Rattle.script_replay.specs.Standing.{IsReady};

use crate::coming::pull_bytes;
use crate::failures::{Stop, stop_by};
use crate::run::Run;
use crate::sending::push_bytes;
use script_sides::laws::ready_goes_on;
use wp_outside::{Direction, LinkStore, Side};

impl Run {
    /// Makes the next connection, unless one is up.
    pub(crate) fn connect<L: LinkStore>(&mut self, line: &mut L) -> Result<(), Stop>
        requires { IsReady self.old (L.line line.old) }
        ensures { IfStops result (Goes (Connect ∷ [])
            self.old self.new (L.line line.old) (L.line line.new)) }
    {
        ready_goes_on();
        if self.up {
            return Ok(());
        }
        self.connect_next(line)
    }

    /// Makes the next connection, where a side keeps a frame and none is up.
    pub(crate) fn connect_if_held<L: LinkStore>(&mut self, line: &mut L) -> Result<(), Stop>
        requires { IsReady self.old (L.line line.old) }
        ensures { IfStops result (Goes (ConnectIfHeld ∷ [])
            self.old self.new (L.line line.old) (L.line line.new)) }
    {
        ready_goes_on();
        if self.near.holds() || self.far.holds() {
            self.connect(line)
        } else {
            Ok(())
        }
    }

    /// Makes the next connection, where none is up.
    fn connect_next<L: LinkStore>(&mut self, line: &mut L) -> Result<(), Stop>
        requires ready { IsReady self.old (L.line line.old) }
        requires down { self.old.up ≡ false }
        ensures { IfStops result (Goes (Connect ∷ [])
            self.old self.new (L.line line.old) (L.line line.new)) }
    {
        ready_goes_on();
        let next = self.last + 1;
        match self.near.link_up(next) {
            Ok(()) => match self.far.link_up(next) {
                Ok(()) => match line.open(next) {
                    Ok(()) => {
                        self.last = next;
                        self.up = true;
                        Ok(())
                    }
                    Err(_) => Err(Stop::Memory),
                },
                Err(fault) => Err(stop_by(Side::Far, fault)),
            },
            Err(fault) => Err(stop_by(Side::Near, fault)),
        }
    }

    /// Ends the connection, if one is up, with all that waits on it.
    pub(crate) fn cut<L: LinkStore>(&mut self, line: &mut L)
        requires { IsReady self.old (L.line line.old) }
        ensures { Goes (Break ∷ []) self.old self.new (L.line line.old) (L.line line.new) None }
    {
        ready_goes_on();
        if self.up {
            self.near.link_down();
            self.far.link_down();
            line.cut(self.last);
            self.up = false;
        }
    }

    /// Pushes up to so many bytes into one direction, if a connection is up.
    pub(crate) fn push<L: LinkStore>(
        &mut self,
        dir: Direction,
        most: usize,
        line: &mut L,
    ) -> Result<(), Stop>
        requires { IsReady self.old (L.line line.old) }
        ensures { IfStops result (Goes (Push dir most ∷ [])
            self.old self.new (L.line line.old) (L.line line.new)) }
    {
        ready_goes_on();
        if !self.up {
            return Ok(());
        }
        match dir {
            Direction::Up => match push_bytes(&mut self.near, dir, most, self.last, line) {
                Ok(()) => Ok(()),
                Err(fault) => Err(stop_by(Side::Near, fault)),
            },
            Direction::Down => match push_bytes(&mut self.far, dir, most, self.last, line) {
                Ok(()) => Ok(()),
                Err(fault) => Err(stop_by(Side::Far, fault)),
            },
        }
    }

    /// Pulls up to so many bytes out of one direction, if a connection is up. The room is for what
    /// is pulled at once.
    pub(crate) fn pull<L: LinkStore>(
        &mut self,
        dir: Direction,
        most: usize,
        line: &mut L,
        room: &mut [u8],
    ) -> Result<(), Stop>
        requires sized { length room.old ≡ 65536 }
        requires ready { IsReady self.old (L.line line.old) }
        ensures { IfStops result (Goes (Pull dir most ∷ [])
            self.old self.new (L.line line.old) (L.line line.new)) }
    {
        ready_goes_on();
        if !self.up {
            return Ok(());
        }
        match dir {
            Direction::Up => match pull_bytes(&mut self.far, dir, most, self.last, line, room) {
                Ok(()) => Ok(()),
                Err(fault) => Err(stop_by(Side::Far, fault)),
            },
            Direction::Down => match pull_bytes(&mut self.near, dir, most, self.last, line, room) {
                Ok(()) => Ok(()),
                Err(fault) => Err(stop_by(Side::Near, fault)),
            },
        }
    }

    /// Replaces a byte that waits in one direction, if so many wait on a connection that is up.
    pub(crate) fn spoil<L: LinkStore>(
        &mut self,
        dir: Direction,
        offset: usize,
        byte: u8,
        line: &mut L,
    )
        requires { IsReady self.old (L.line line.old) }
        ensures { Goes (Spoil dir offset byte ∷ [])
            self.old self.new (L.line line.old) (L.line line.new) None }
    {
        ready_goes_on();
        if self.up {
            line.spoil(self.last, dir, offset, byte);
        }
    }
}
