ghost use Rattle.std.specs.Prelude.{◌≡◌, ◌↔◌, OnOk, IfErr, IfSome, IsErr};
ghost use Rattle.watch_streams.specs.Ports.{PortState, PutsIn, HandsBack};

use crate::message::Msg;

/// Where the messages of one stream are put in.
pub trait Port {
    /// The messages that were put in, how often one came back, and the room that is left, where that is told.
    /// The count of messages that came back stands still at the greatest number of 64 bits.
    ghost state: { Self → PortState };

    /// What an offer leaves of the port.
    ghost same: { Self → Self → Type 0 };

    ghost same_itself: { (port : Self) → same port port };

    ghost same_later: { (a b c : Self) → same a b → same b c → same a c };

    /// Puts a message in behind the others, or hands it back. It does not allocate.
    fn offer(&mut self, m: Msg) -> Result<(), Msg>
        ensures puts_in { OnOk result (PutsIn m (state self.old) (state self.new)) }
        ensures hands_back { IfErr result (λ back. HandsBack m back (state self.old) (state self.new)) }
        ensures room { IfSome (state self.old).room (λ places. IsErr result ↔ (places ≡ 0)) }
        ensures same { same self.old self.new };
}
