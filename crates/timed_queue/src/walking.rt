//! Looking along the ring of a place.
ghost use Rattle.std.specs.Prelude.{◌≡◌, ℕ, ◌<◌, ◌≤◌, length, Option, Some, IfNone, IfSome};
ghost use Rattle.timed_queue.specs.Nodes.{IsAt, IsLeastFrom, time_of};
ghost use Rattle.timed_queue.specs.Sound.{IsWheel};
ghost use Rattle.timed_queue.specs.Nearer.{nearer_of};

use crate::chains::{Node, next_of, time_of};
use crate::wheel::Wheel;

impl Wheel {
    // Of the nodes of the place whose time is not below t, one with the least.
    pub(crate) fn least_from(&self, place: u32, t: u64) -> Option<u32>
        requires sound { IsWheel self.now }
        requires low { place < 704 }
        requires within { place < length self.now.nodes.items }
        ensures none { IfNone result ((j : ℕ) → IsAt self.now.nodes.items place j → time_of self.now.nodes.items j < t) }
        ensures some { IfSome result (IsLeastFrom self.now.nodes.items place t) }
    {
        let mut least = None;
        let mut at = next_of(&self.nodes, place);
        'walking: for step in 0..self.nodes.len() {
            if at == place {
                return least;
            }
            if time_of(&self.nodes, at) == t {
                return Some(at);
            }
            least = nearer(&self.nodes, least, at, t);
            at = next_of(&self.nodes, at);
        }
        least
    }
}

// The node at, where its time is not below t and below that of the other one; else that one.
fn nearer(nodes: &Vec<Node>, least: Option<u32>, at: u32, t: u64) -> Option<u32>
    requires within { at < length nodes.now.items }
    requires least_in { (b : ℕ) → least ≡ Some b → b < length nodes.now.items }
    ensures { result ≡ nearer_of nodes.now.items least at t }
{
    let time = time_of(nodes, at);
    match least {
        Some(other) => {
            if time < t {
                return least;
            }
            if time < time_of(nodes, other) {
                return Some(at);
            }
            least
        }
        None => {
            if time < t {
                return None;
            }
            Some(at)
        }
    }
}
