//! Where a run goes among others, and how it takes the place of those that it touches.

ghost use Rattle.std.specs.Prelude.{◌≡◌, ◌+◌, ◌-◌, ◌<◌, ◌≤◌, ◌∷◌, ◌++◌, length, take, drop};
ghost use Rattle.std.specs.Prelude.{IfSome, OnOk, OnErr};
ghost use Rattle.std.specs.List.{fold, AllWithin};
ghost use Rattle.block_intervals.specs.Sets.{Rises};
ghost use Rattle.block_intervals.specs.Places.{spanning, AreTouched};

use crate::run::Run;
use std::alloc::AllocError;

// The runs from `from` up to `to` touch a new one; those before end below it, those after begin
// above it.
#[derive(Clone, Copy)]
pub(crate) struct Place {
    pub(crate) from: usize,
    pub(crate) to: usize,
}

// How many runs end before `block`.
pub(crate) fn ending_before(runs: &[Run], block: u32) -> usize
    requires { Rises runs.now }
    ensures within { result ≤ length runs.now }
    ensures before { AllWithin (λ run. run.end < block) runs.now 0 result }
    ensures from_there { AllWithin (λ run. block ≤ run.end) runs.now result (length runs.now) }
{
    runs.partition_point(|run| run.end < block)
}

// How many runs end at `block` or before.
pub(crate) fn ending_until(runs: &[Run], block: u32) -> usize
    requires { Rises runs.now }
    ensures within { result ≤ length runs.now }
    ensures until { AllWithin (λ run. run.end ≤ block) runs.now 0 result }
    ensures after { AllWithin (λ run. block < run.end) runs.now result (length runs.now) }
{
    runs.partition_point(|run| run.end <= block)
}

// How many runs begin at `block` or before.
pub(crate) fn beginning_until(runs: &[Run], block: u32) -> usize
    requires { Rises runs.now }
    ensures within { result ≤ length runs.now }
    ensures until { AllWithin (λ run. run.first ≤ block) runs.now 0 result }
    ensures after { AllWithin (λ run. block < run.first) runs.now result (length runs.now) }
{
    runs.partition_point(|run| run.first <= block)
}

// The same at once, where the new run begins no earlier than the last one.
fn place_at_end(runs: &[Run], new: Run) -> Option<Place>
    requires rises { Rises runs.now }
    requires some { new.first < new.end }
    ensures { IfSome result (λ touched. AreTouched runs.now new touched.from touched.to) }
{
    let count = runs.len();
    if count == 0 {
        return Some(Place { from: 0, to: 0 });
    }
    let last = runs[count - 1];
    if last.end < new.first {
        return Some(Place {
            from: count,
            to: count,
        });
    }
    if last.first <= new.first {
        return Some(Place {
            from: count - 1,
            to: count,
        });
    }
    None
}

// The runs that a new one touches: found at once at the end, else by binary search.
pub(crate) fn find_place(runs: &[Run], new: Run) -> Place
    requires rises { Rises runs.now }
    requires some { new.first < new.end }
    ensures { AreTouched runs.now new result.from result.to }
{
    match place_at_end(runs, new) {
        Some(found) => found,
        None => Place {
            from: ending_before(runs, new.first),
            to: beginning_until(runs, new.end),
        },
    }
}

// The least run that has the blocks of `new` and of all `runs`.
pub(crate) fn spanning_all(new: Run, runs: &[Run]) -> Run
    ensures { result ≡ fold spanning new runs.now }
{
    let mut whole = new;
    for run in runs {
        whole = whole.spanning(*run);
    }
    whole
}

// Puts `run` in place of the runs from `from` up to `to`.
pub(crate) fn replace_runs(
    runs: &mut Vec<Run>,
    from: usize,
    to: usize,
    run: Run,
) -> Result<(), AllocError>
    requires order { from ≤ to }
    requires within { to ≤ length runs.old.items }
    ensures ok { OnOk result
        (runs.new.items ≡ take from runs.old.items ++ run ∷ drop to runs.old.items) }
    ensures err { OnErr result (runs.new.items ≡ runs.old.items) }
{
    if from == to {
        runs.insert(from, run)?;
        return Ok(());
    }
    runs[from] = run;
    if from + 1 < to {
        drop(runs.drain(from + 1..to));
    }
    Ok(())
}
