use crate::addr::Addr;
use crate::keys::Dir;
use crate::service::Proto;

/// A packet as it arrives at a switch. `tunnel` is the address of the tunnel, and is there at port 1 alone.
#[derive(Clone, Copy, Debug)]
pub struct Packet {
    pub inport: u16,
    pub src: Addr,
    pub dst: Addr,
    pub proto: Proto,
    pub sport: u16,
    pub dport: u16,
    pub tunnel: Option<Addr>,
}

/// Traffic whose verdict is asked for: between `own`, a pod's address, and `peer`; `port` is the destination's.
#[derive(Clone, Copy, Debug)]
pub struct Question {
    pub dir: Dir,
    pub own: Addr,
    pub peer: Addr,
    pub proto: Proto,
    pub port: u16,
}
