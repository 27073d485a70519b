//! The rule of the two queues, and the steps that keep it. No value of these types is made: they
//! stand in contracts alone.

use crossbeam_queue::RuledArrayQueue;
use crossbeam_queue::protocol::{Join, Lesson, Outcome, Protocol, Split};
use std::collections::LinkedList;

/// What one thread knows of a queue: its parts of the right to know the whole, what it put in, and
/// what it took out.
pub struct Hand<T> {
    pub parts: u64,
    pub put: LinkedList<T>,
    pub taken: LinkedList<T>,
}

/// What came in is what went out, and then what the queue holds.
pub struct InOrder;

impl<T> Protocol<T, Hand<T>> for InOrder {
    ghost use Rattle.std.specs.Prelude.{[]};
    ghost use Rattle.copy_workers.specs.Hands.{Flows, hand, all_parts};

    ghost holds = { Flows };

    ghost first = { hand all_parts [] [] };
}

/// A queue that several threads share, under this rule.
pub type Line<T> = RuledArrayQueue<T, Hand<T>, InOrder>;

/// An item is put in at the back.
pub struct Puts;

impl<T> Outcome<T, Hand<T>> for Puts {
    ghost use Rattle.std.specs.Prelude.{◌≡◌, [], ◌∷◌, ◌++◌};
    ghost use Rattle.copy_workers.specs.Hands.{hand};

    ghost then = { λ v x w. w ≡ hand v.parts (v.put ++ x ∷ []) v.taken };
}

impl<T> Lesson<T, Hand<T>> for Puts {
    ghost fact = { λ v items. Unit {0} };
}

/// An item is taken out at the front.
pub struct Takes;

impl<T> Outcome<T, Hand<T>> for Takes {
    ghost use Rattle.std.specs.Prelude.{◌≡◌, [], ◌∷◌, ◌++◌};
    ghost use Rattle.copy_workers.specs.Hands.{hand};

    ghost then = { λ v x w. w ≡ hand v.parts v.put (v.taken ++ x ∷ []) };
}

impl<T> Lesson<T, Hand<T>> for Takes {
    ghost use Rattle.copy_workers.specs.Hands.{Totals};

    ghost fact = { Totals };
}

/// A hand gives one of its parts to a new one.
pub struct Shares;

impl<T> Split<Hand<T>> for Shares {
    ghost use Rattle.std.specs.Prelude.{[], ◌-◌};
    ghost use Rattle.copy_workers.specs.Hands.{hand};

    ghost left = { λ v. hand (v.parts - 1) v.put v.taken };

    ghost right = { λ v. hand 1 [] [] };
}

/// A hand takes in another.
pub struct Absorbs;

impl<T> Join<Hand<T>> for Absorbs {
    ghost use Rattle.std.specs.Prelude.{[], ◌+◌, ◌++◌};
    ghost use Rattle.copy_workers.specs.Hands.{hand};

    ghost both = { λ v w. hand (v.parts + w.parts) (v.put ++ w.put) (v.taken ++ w.taken) };

    ghost spent = { hand 0 [] [] };
}
