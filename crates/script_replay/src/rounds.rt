//! The rounds in which all that waits moves.

ghost use Rattle.std.specs.Prelude.{◌≡◌, ◌↔◌, ℕ, ◌<◌, [], ◌∷◌, length, IsTrue, IfOk, OnOk};
ghost use Rattle.wp_outside.specs.declared.kinds.Side.TheVariants.{Near, Far};
ghost use Rattle.side_model.specs.Books.{weight};
ghost use Rattle.pair_runs.specs.Moves.{Take, LoadAll, Push, Pull};
ghost use Rattle.pair_runs.specs.Runs.{round, Settles};
ghost use Rattle.script_replay.specs.Going.{IfStops, Goes, GoesBy, GoesAside};
ghost use Rattle.script_replay.specs.Settling.{bring, carry, ChangedIf, ChangedAside};
ghost use Rattle.script_replay.specs.Standing.{state_of, IsReady, IsReadyAside};

use crate::failures::Stop;
use crate::run::Run;
use wp_outside::{Direction, LinkStore, Side};

impl Run {
    /// Rounds of a size until one changes nothing, or until a fault.
    pub(crate) fn settle<L: LinkStore>(
        &mut self,
        most: usize,
        line: &mut L,
        room: &mut [u8],
    ) -> Result<(), Stop>
        requires sized { length room.old ≡ 65536 }
        requires some { 0 < most }
        requires ready { IsReady self.old (L.line line.old) }
        ensures { IfStops result (GoesBy (Settles most) self.old self.new (L.line line.old) (L.line line.new)) }
    {
        'rounds: loop {
            match self.round(most, line, room) {
                Ok(true) => {}
                Ok(false) => return Ok(()),
                Err(stop) => return Err(stop),
            }
        }
    }

    /// One round of a size. Answers whether it changed anything.
    fn round<L: LinkStore>(
        &mut self,
        most: usize,
        line: &mut L,
        room: &mut [u8],
    ) -> Result<bool, Stop>
        requires sized { length room.old ≡ 65536 }
        requires some { 0 < most }
        requires ready { IsReady self.old (L.line line.old) }
        ensures moves { IfStops result (Goes (round most) self.old self.new (L.line line.old) (L.line line.new)) }
        ensures moved { IfOk result (λ moved.
            ChangedIf moved (state_of self.old (L.line line.old)) (state_of self.new (L.line line.new))) }
    {
        let near = self.near.weight();
        let far = self.far.weight();
        match self.bring(most) {
            Ok(brought) => match self.carry(most, line, room) {
                Ok(()) => Ok(brought || !self.weighs(near, far)),
                Err(stop) => Err(stop),
            },
            Err(stop) => Err(stop),
        }
    }

    /// Whether the records of both sides weigh so much.
    fn weighs(&self, near: u64, far: u64) -> bool
        ensures { IsTrue result ↔ ((weight self.now.near.trail.book.trail ≡ near)
            × (weight self.now.far.trail.book.trail ≡ far)) }
    {
        near == self.near.weight() && far == self.far.weight()
    }

    /// Both sides take from their wires, and all copies that are awaited are loaded. Answers
    /// whether there was anything to be taken or loaded.
    fn bring(&mut self, most: usize) -> Result<bool, Stop>
        requires { IsReadyAside self.old }
        ensures moves { IfStops result (GoesAside (bring most) self.old self.new) }
        ensures brought { IfOk result (ChangedAside self.old self.new) }
    {
        match self.take_both(most) {
            Ok(took) => match self.load_both() {
                Ok(loaded) => Ok(took || loaded),
                Err(stop) => Err(stop),
            },
            Err(stop) => Err(stop),
        }
    }

    /// Both sides take from their wires. Answers whether one of them took an item.
    fn take_both(&mut self, most: usize) -> Result<bool, Stop>
        requires { IsReadyAside self.old }
        ensures moves { IfStops result (GoesAside (Take Near most ∷ Take Far most ∷ []) self.old self.new) }
        ensures took { IfOk result (ChangedAside self.old self.new) }
        ensures ready { OnOk result (IsReadyAside self.new) }
    {
        match self.take(Side::Near, most) {
            Ok(near) => match self.take(Side::Far, most) {
                Ok(far) => Ok(near || far),
                Err(stop) => Err(stop),
            },
            Err(stop) => Err(stop),
        }
    }

    /// All copies that are awaited are loaded. Answers whether there were copies.
    fn load_both(&mut self) -> Result<bool, Stop>
        requires { IsReadyAside self.old }
        ensures moves { IfStops result (GoesAside (LoadAll Near ∷ LoadAll Far ∷ []) self.old self.new) }
        ensures loaded { IfOk result (ChangedAside self.old self.new) }
    {
        match self.load_all(Side::Near) {
            Ok(near) => match self.load_all(Side::Far) {
                Ok(far) => Ok(near || far),
                Err(stop) => Err(stop),
            },
            Err(stop) => Err(stop),
        }
    }

    /// The connection is made where a frame is kept, and bytes go over it both ways.
    fn carry<L: LinkStore>(
        &mut self,
        most: usize,
        line: &mut L,
        room: &mut [u8],
    ) -> Result<(), Stop>
        requires sized { length room.old ≡ 65536 }
        requires ready { IsReady self.old (L.line line.old) }
        ensures { IfStops result (Goes (carry most) self.old self.new (L.line line.old) (L.line line.new)) }
    {
        match self.connect_if_held(line) {
            Ok(()) => match self.both(Direction::Up, most, line, room) {
                Ok(()) => self.both(Direction::Down, most, line, room),
                Err(stop) => Err(stop),
            },
            Err(stop) => Err(stop),
        }
    }

    /// Pushes up to so many bytes into one direction, and pulls as many out of it.
    pub(crate) fn both<L: LinkStore>(
        &mut self,
        dir: Direction,
        most: usize,
        line: &mut L,
        room: &mut [u8],
    ) -> Result<(), Stop>
        requires sized { length room.old ≡ 65536 }
        requires ready { IsReady self.old (L.line line.old) }
        ensures { IfStops result (Goes (Push dir most ∷ Pull dir most ∷ []) self.old self.new (L.line line.old) (L.line line.new)) }
    {
        match self.push(dir, most, line) {
            Ok(()) => self.pull(dir, most, line, room),
            Err(stop) => Err(stop),
        }
    }
}
