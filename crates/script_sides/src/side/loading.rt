//! How the words of copies are loaded.

ghost use Rattle.std.specs.Prelude.{◌≡◌, ◌≢◌, ◌<◌, true, false, [], None, Ok};
ghost use Rattle.owed_groups.specs.Lending.{done_of};
ghost use Rattle.pair_runs.specs.Loading.{LoadsAll};
ghost use Rattle.script_sides.specs.Answering.{Answers, Leaves};
ghost use Rattle.script_sides.specs.Progressing.{LoadsBy, LoadsMessage, LoadedBy};
ghost use Rattle.script_sides.specs.Progressing.{Begins, IsLast, before};
ghost use Rattle.script_sides.specs.Ready.{IsReady};
ghost use Rattle.script_sides.specs.Sided.{state_of};
ghost use Rattle.side_model.specs.Sound.{HasLoads};

use super::ScriptSide;
use crate::half_copy::HalfCopy;
use crate::progress::Progress;
use copy_workers::CopyDone;
use side_model::ProxyFault;

impl ScriptSide {
    /// Loads so many words of the copies that are awaited, also of those that come to be awaited
    /// then, and tells how many words are over.
    ///
    /// # Errors
    /// Those of the proxy where a copy is handed back, or want of memory.
    pub fn load(&mut self, words: usize) -> Result<usize, ProxyFault>
        requires { IsReady self.old }
        ensures loads { LoadsBy words (state_of self.old) (state_of self.new) result }
        ensures leaves { Leaves result self.old self.new }
        ensures wire { self.new.peer.wire ≡ self.old.peer.wire }
    {
        let mut left = words;
        'parts: while left > 0 {
            match self.load_some(left)? {
                Progress::Nothing => return Ok(left),
                Progress::Part(count) => left -= count,
                Progress::Whole(count) => left -= count,
            }
        }
        Ok(0)
    }

    /// Loads all words of the copies that are awaited, also of those that come to be awaited then;
    /// true where some were loaded.
    ///
    /// # Errors
    /// Those of the proxy where a copy is handed back, or want of memory.
    pub fn load_all(&mut self) -> Result<bool, ProxyFault>
        requires { IsReady self.old }
        ensures loads { Answers result (LoadsAll (state_of self.old) (state_of self.new)) }
        ensures none { result ≡ Ok false → state_of self.new ≡ state_of self.old }
        ensures some { result ≡ Ok true → (state_of self.old).copies ≢ [] }
        ensures leaves { Leaves result self.old self.new }
        ensures wire { self.new.peer.wire ≡ self.old.peer.wire }
    {
        let mut loaded = false;
        'messages: while self.load_message()? {
            loaded = true;
        }
        Ok(loaded)
    }

    /// Loads all words of the copies of the message that is owed; false where none is.
    fn load_message(&mut self) -> Result<bool, ProxyFault>
        requires { IsReady self.old }
        ensures loads { LoadsMessage (state_of self.old) (state_of self.new) result }
        ensures leaves { Leaves result self.old self.new }
        ensures wire { self.new.peer.wire ≡ self.old.peer.wire }
    {
        'copies: loop {
            match self.load_some(usize::MAX)? {
                Progress::Nothing => return Ok(false),
                Progress::Part(_) => {}
                Progress::Whole(_) => return Ok(true),
            }
        }
    }

    /// Loads at most so many words of the first copy that is awaited.
    fn load_some(&mut self, most: usize) -> Result<Progress, ProxyFault>
        requires ready { IsReady self.old }
        requires some { 0 < most }
        ensures loads { LoadedBy most (state_of self.old) (state_of self.new) result }
        ensures leaves { Leaves result self.old self.new }
        ensures wire { self.new.peer.wire ≡ self.old.peer.wire }
    {
        let mut half = match self.next_half() {
            Some(half) => half,
            None => return Ok(Progress::Nothing),
        };
        let count = half.load(most);
        if half.is_whole() {
            self.hand_back(half, count)
        } else {
            self.half = Some(half);
            Ok(Progress::Part(count))
        }
    }

    /// The copy that is out, or else the next one, which is out then; None where none is awaited.
    fn next_half(&mut self) -> Option<HalfCopy>
        requires { IsReady self.old }
        ensures { Begins result self.old self.new }
    {
        match self.half.take() {
            Some(half) => Some(half),
            None => self.lend(),
        }
    }

    /// Lends the next copy.
    fn lend(&mut self) -> Option<HalfCopy>
        requires ready { IsReady self.old }
        requires none { self.old.half ≡ None }
        ensures { Begins result self.old self.new }
    {
        let copy = self.trail.next_copy();
        self.trail.stands();
        match copy {
            Some(copy) => Some(HalfCopy::new(copy)),
            None => None,
        }
    }

    /// Hands back a copy that is loaded whole, of which so many words were loaded just now.
    fn hand_back(&mut self, half: HalfCopy, count: usize) -> Result<Progress, ProxyFault>
        requires { IsLast count half self.old }
        ensures loads { LoadedBy count (state_of (before count half self.old)) (state_of self.new)
            result }
        ensures leaves { Leaves result self.old self.new }
        ensures wire { self.new.peer.wire ≡ self.old.peer.wire }
    {
        let made = self.trail.record().copies.len();
        let done = half.finish();
        has_loads(&done);
        let answer = self.trail.copy_done(done);
        self.trail.stands();
        answer?;
        match self.give() {
            Ok(()) => {}
            Err(_) => return Err(ProxyFault::Memory),
        }
        if self.trail.record().copies.len() == made {
            Ok(Progress::Part(count))
        } else {
            Ok(Progress::Whole(count))
        }
    }
}

// The receipt of a copy stands for just the loads of its words: its type keeps that.
fn has_loads(done: &CopyDone)
    ensures { HasLoads (done_of done.now) }
{
    let _ = &done.receipt;
}
