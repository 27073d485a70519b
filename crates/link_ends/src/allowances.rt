//! How much of a direction arrives.

ghost use Rattle.std.specs.Prelude.{◌≡◌, ◌<◌, ◌≤◌, Some};
ghost use Rattle.link_ends.specs.Allowances.{passing, less_by, bound_on};

use crate::dial_pairs::Cut;
use std::marker::Model;
use wp_outside::Direction;

/// How many bytes more of one direction of a connection may pass, or that all may.
#[derive(Drop)]
pub struct Allowance {
    left: Option<u64>,
}

impl Model for Allowance {
    ghost use Rattle.std.specs.Prelude.{Option, ℕ};

    ghost Value = { Option ℕ };

    ghost view = { λ a. a.left };
}

impl Allowance {
    /// What may pass on this connection, by the list of cuts, the first of which is for connection 1.
    pub fn on(cuts: &[Cut], connection: u32, dir: Direction) -> Allowance
        requires { 0 < connection }
        ensures { result ≡ bound_on cuts.now connection dir }
    {
        let left = match cuts.get(connection as usize - 1) {
            Some(cut) if cut.dir == dir => Some(cut.after),
            _ => None,
        };
        Allowance { left }
    }

    /// The same once more.
    pub fn same(&self) -> Allowance
        ensures { result ≡ self.now }
    {
        Allowance { left: self.left }
    }

    /// How many bytes of a piece of this length may pass.
    pub fn passing(&self, piece: usize) -> usize
        ensures count { result ≡ passing self.now piece }
        ensures part { result ≤ piece }
        ensures none { 0 < piece → result ≡ 0 → self.now ≡ Some 0 }
    {
        match self.left {
            Some(left) if left < piece as u64 => left as usize,
            _ => piece,
        }
    }

    /// So many bytes have passed.
    pub fn pass(&mut self, count: usize)
        ensures { self.new ≡ less_by count self.old }
    {
        if let Some(left) = self.left {
            self.left = Some(left.saturating_sub(count as u64));
        }
    }
}
