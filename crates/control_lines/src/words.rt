//! The words of control lines.
ghost use Rattle.std.specs.Prelude.{◌≡◌, codes};
ghost use Rattle.serde_json.specs.View.{view};
ghost use Rattle.json_fields.specs.Answer.{Gives};
ghost use Rattle.control_lines.specs.Words.{protocol_of, direction_of, stream_of, view_of, word_at, stream_if_there};

use crate::needed::{needed, text_at, text_of};
use cl_types::{Dir, Proto, Stream};
use json_fields::{ReadRefusal, field};
use serde_json::Value;

/// Whose verdict a question asks for: the policies' own, or that of what a node's agent holds.
#[derive(Clone, Copy, Debug, PartialEq, Eq)]
pub enum View {
    PoliciesView,
    HeldView,
}

fn protocol_of(text: &[u8]) -> Option<Proto>
    ensures { result ≡ protocol_of text.now }
{
    if text == b"tcp".as_slice() {
        Some(Proto::Tcp)
    } else if text == b"udp".as_slice() {
        Some(Proto::Udp)
    } else if text == b"sctp".as_slice() {
        Some(Proto::Sctp)
    } else if text == b"icmp".as_slice() {
        Some(Proto::Icmp)
    } else {
        None
    }
}

fn direction_of(text: &[u8]) -> Option<Dir>
    ensures { result ≡ direction_of text.now }
{
    if text == b"ingress".as_slice() {
        Some(Dir::Ingress)
    } else if text == b"egress".as_slice() {
        Some(Dir::Egress)
    } else {
        None
    }
}

fn stream_of(text: &[u8]) -> Option<Stream>
    ensures { result ≡ stream_of text.now }
{
    if text == b"policies".as_slice() {
        Some(Stream::Policies)
    } else if text == b"addresses".as_slice() {
        Some(Stream::Addresses)
    } else if text == b"applied".as_slice() {
        Some(Stream::Applied)
    } else {
        None
    }
}

fn view_of(text: &[u8]) -> Option<View>
    ensures { result ≡ view_of text.now }
{
    if text == b"policies".as_slice() {
        Some(View::PoliciesView)
    } else if text == b"held".as_slice() {
        Some(View::HeldView)
    } else {
        None
    }
}

/// The protocol of a packet or a question.
#[tactic(auto, unfolding(crate::specs::Words::word_at))]
pub(crate) fn protocol_at(value: &Value) -> Result<Proto, ReadRefusal>
    ensures { Gives (λ (x : _). x) result (word_at protocol_of (codes "protocol") (view value.now)) }
{
    needed(protocol_of(text_at(value, "protocol")?.as_bytes()))
}

/// The direction of a question.
#[tactic(auto, unfolding(crate::specs::Words::word_at))]
pub(crate) fn direction_at(value: &Value) -> Result<Dir, ReadRefusal>
    ensures { Gives (λ (x : _). x) result (word_at direction_of (codes "direction") (view value.now)) }
{
    needed(direction_of(text_at(value, "direction")?.as_bytes()))
}

/// Whose verdict a question asks for.
#[tactic(auto, unfolding(crate::specs::Words::word_at))]
pub(crate) fn view_at(value: &Value) -> Result<View, ReadRefusal>
    ensures { Gives (λ (x : _). x) result (word_at view_of (codes "view") (view value.now)) }
{
    needed(view_of(text_at(value, "view")?.as_bytes()))
}

/// The stream that is meant.
#[tactic(auto, unfolding(crate::specs::Words::word_at))]
pub(crate) fn stream_at(value: &Value) -> Result<Stream, ReadRefusal>
    ensures { Gives (λ (x : _). x) result (word_at stream_of (codes "stream") (view value.now)) }
{
    needed(stream_of(text_at(value, "stream")?.as_bytes()))
}

/// The stream that is meant, where one is named.
#[tactic(auto, unfolding(crate::specs::Words::stream_if_there))]
pub(crate) fn stream_if_there(value: &Value) -> Result<Option<Stream>, ReadRefusal>
    ensures { Gives (λ (x : _). x) result (stream_if_there (view value.now)) }
{
    match field(value, "stream") {
        Some(found) => Ok(Some(needed(stream_of(text_of(found)?.as_bytes()))?)),
        None => Ok(None),
    }
}
