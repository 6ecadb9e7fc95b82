ghost use Rattle.std.specs.Prelude.{◌≡◌, ◌≤◌, IfOk, refl};
ghost use Rattle.std.proofs.Common.{◌∙◌};

use crate::message::Msg;
use crate::port::Port;
use cl_types::NoMemory;
use std::alloc::Global;
use std::collections::VecDeque;
use std::marker::Model;

/// A port that keeps its messages until they are taken, at most so many at once. The places of all of them
/// are there from the start.
#[derive(Debug, Drop)]
pub struct QueuePort {
    queue: VecDeque<Msg>,
    ring: u32,
    backs: u64,
}

impl Model for QueuePort {
    ghost use Rattle.std.specs.Prelude.{◌≤◌};
    ghost use Rattle.std.specs.VecDeque.{deque_capacity};
    ghost use Rattle.watch_streams.specs.Ports.{QueueData};
    ghost use Rattle.watch_streams.specs.QueuePlaces.{HasPlaces};

    ghost Value = { QueueData };

    ghost view = { λ q. record { ring = q.ring; messages = q.queue.items; backs = q.backs } };

    ghost invariant = { λ q. HasPlaces q.queue.items (deque_capacity q.queue) q.ring };
}

impl QueuePort {
    ghost use Rattle.watch_streams.specs.Ports.{empty_queue, IsTaken};

    /// A port for this many messages, with all places reserved.
    pub fn new(alloc: Global, ring: u32) -> Result<QueuePort, NoMemory>
        requires { (1 ≤ ring) × (ring ≤ 4096) }
        ensures { IfOk result (λ port. port ≡ empty_queue ring) }
    {
        Ok(QueuePort {
            queue: VecDeque::with_capacity(alloc, ring as usize)?,
            ring,
            backs: 0,
        })
    }

    /// Takes the oldest message. It does not allocate.
    pub fn take(&mut self) -> Option<Msg>
        ensures { IsTaken self.old result self.new }
    {
        self.queue.pop_front()
    }
}

impl Port for QueuePort {
    ghost use Rattle.watch_streams.specs.Ports.{queue_state, HasSameRing};

    ghost state = { queue_state };

    ghost same = { HasSameRing };

    ghost same_itself = { λ port. refl };

    ghost same_later = { λ a b c p q. q ∙ p };

    fn offer(&mut self, m: Msg) -> Result<(), Msg> {
        if self.queue.len() >= self.ring as usize {
            self.backs = self.backs.saturating_add(1);
            return Err(m);
        }
        self.queue.push_back_reserved(m);
        Ok(())
    }
}
