//! What holds of every controller, whatever the code.
ghost use Rattle.ctl_core.specs.Laws.{CutsKeepStreams, LinesKeepStreams, RejoinsKeepStreams, TakesKeepStreams};

use stream_messages::{parts_are_streams, streams_go_on};
use watch_streams::Port;

/// A line leaves what the ports were sent a stream of the history, with the line's cluster at its end where it made a
/// revision.
pub fn lines_keep_streams<P: Port>()
    ensures { LinesKeepStreams P.state P.same }
{
    streams_go_on();
}

/// A stream that is cut, or begins again, holds a stream of the same history, and so do all others.
pub fn cuts_and_rejoins_keep_streams<P: Port>()
    ensures cuts { CutsKeepStreams P.state }
    ensures rejoins { RejoinsKeepStreams P.state P.same }
{
    parts_are_streams();
    streams_go_on();
}

/// A message that is taken leaves a stream from its revision on.
pub fn takes_keep_streams()
    ensures { TakesKeepStreams }
{
    parts_are_streams();
}
