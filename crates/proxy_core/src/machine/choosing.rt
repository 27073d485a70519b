//! To choose the next front.

ghost use Rattle.std.specs.Prelude.{◌≡◌, None};
ghost use Rattle.side_model.specs.Sound.{Sound};
ghost use Rattle.proxy_core.specs.Treating.{Chooses, may_choose};

use super::*;
use crate::fronts::SmallFront;
use crate::link::Front;

impl Machine {
    // Chooses the next front where none is being sent and the other side's RESTART was read: an ACK,
    // where more frames were accepted than told, else the next frame of the ring. Says whether one
    // was chosen.
    #[tactic(auto, unfolding(side_model::specs::Due::choose, side_model::specs::Steps::step))]
    pub(super) fn choose(&mut self) -> bool
        requires running { self.old.fault ≡ None }
        requires sound { Sound self.old }
        ensures { Chooses result self.old self.new }
    {
        if !self.may_choose() {
            return false;
        }
        let accepted = self.counts.accepted();
        match &mut self.link {
            None => unreachable!(),
            Some(link) => {
                if link.told < accepted {
                    link.front = Front::Small(SmallFront::ack(accepted));
                    link.told = accepted;
                    return true;
                }
                if link.next < self.ring.made() {
                    link.front = Front::Kept { sent: 0 };
                    link.next += 1;
                    return true;
                }
                false
            }
        }
    }

    // Whether a connection is up on which no front is being sent and the other side's RESTART was
    // read.
    fn may_choose(&self) -> bool
        requires { Sound self.now }
        ensures { result ≡ may_choose self.now.live.here }
    {
        match &self.link {
            None => false,
            Some(link) => match link.front {
                Front::Nothing => link.answered,
                Front::Small(_) => false,
                Front::Kept { .. } => false,
            },
        }
    }
}
