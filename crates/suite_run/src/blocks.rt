//! The text that is printed of each line.
ghost use Rattle.std.specs.Prelude.{◌≡◌, ◌++◌, [], ◌∷◌, codes, map, OnOk, IfOk};
ghost use Rattle.std.specs.List.{flat_map};
ghost use Rattle.std.specs.Fmt.{decimal};
ghost use Rattle.suite_run.specs.Blocks.{cut_text, cuts_text, revisions_text, stream_name, outcome_text, is_silent, block_text};
ghost use Rattle.suite_run.specs.Changing.{stream_told};
ghost use Rattle.suite_run.specs.Shown.{outcome_of, three};
ghost use Rattle.suite_run.specs.World.{is_refusal};

use crate::world::LineOutcome;
use cl_types::{NoMemory, Rev, Stream, Text, write_bytes, write_judged, write_number};
use ctl_core::StreamOf;
use line_refusals::{write_counted, write_detail, write_refusal};
use std::alloc::Global;

/// What is printed of a line, and whether it says that the line is refused.
#[derive(Debug, Drop)]
pub(crate) struct LineBlock {
    pub(crate) text: Text,
    pub(crate) refusal: bool,
}

/// The block of a line with this number.
#[tactic(auto, unfolding(crate::specs::Blocks::block_text))]
pub(crate) fn block_of(
    alloc: Global,
    number: u64,
    outcome: &LineOutcome,
) -> Result<LineBlock, NoMemory>
    ensures text { IfOk result (λ b. b.text ≡ block_text number (outcome_of outcome.now)) }
    ensures refusal { IfOk result (λ b. b.refusal ≡ is_refusal (outcome_of outcome.now)) }
{
    let mut text = Text::new(alloc);
    if !is_silent(outcome) {
        write_number(&mut text, number)?;
        write_bytes(&mut text, b" ")?;
        write_outcome(&mut text, outcome)?;
        write_bytes(&mut text, b"\n")?;
    }
    Ok(LineBlock {
        text,
        refusal: is_refusal(outcome),
    })
}

fn is_silent(outcome: &LineOutcome) -> bool
    ensures { result ≡ is_silent (outcome_of outcome.now) }
{
    matches!(outcome, LineOutcome::Silent)
}

fn is_refusal(outcome: &LineOutcome) -> bool
    ensures { result ≡ is_refusal (outcome_of outcome.now) }
{
    matches!(outcome, LineOutcome::Refused(_))
}

fn write_outcome(out: &mut Text, outcome: &LineOutcome) -> Result<(), NoMemory>
    ensures { OnOk result (out.new ≡ out.old ++ outcome_text (outcome_of outcome.now)) }
{
    match outcome {
        LineOutcome::Silent => Ok(()),
        LineOutcome::Revision(revision, cut) => {
            write_counted(out, b"revision ", *revision)?;
            write_cuts(out, cut.as_slice())
        }
        LineOutcome::Nodes(count) => write_counted(out, b"nodes ", *count),
        LineOutcome::Unchanged => write_bytes(out, b"unchanged"),
        LineOutcome::Ignored(kind) => write_detail(out, b"ignored ", kind),
        LineOutcome::Refused(refusal) => {
            write_bytes(out, b"refused ")?;
            write_refusal(out, refusal)
        }
        LineOutcome::Controller(revision, judged) => {
            write_counted(out, b"controller ", *revision)?;
            write_bytes(out, b" ")?;
            write_judged(out, judged)
        }
        LineOutcome::Held(node, revisions, judged) => {
            write_held(out, node, *revisions)?;
            write_bytes(out, b" ")?;
            write_judged(out, judged)
        }
        LineOutcome::Delivered(count) => write_counted(out, b"delivered ", *count),
        LineOutcome::Cut => write_bytes(out, b"cut"),
        LineOutcome::Rejoined(revision) => write_counted(out, b"rejoined ", *revision),
        LineOutcome::Settled(revision) => write_counted(out, b"settled ", *revision),
    }
}

fn stream_name(stream: Stream) -> &'static [u8]
    ensures { result.now ≡ stream_name stream }
{
    match stream {
        Stream::Policies => b"policies",
        Stream::Addresses => b"addresses",
        Stream::Applied => b"applied",
    }
}

fn write_cut(out: &mut Text, cut: &StreamOf) -> Result<(), NoMemory>
    ensures { OnOk result (out.new ≡ out.old ++ cut_text (stream_told cut.now)) }
{
    write_bytes(out, b" ")?;
    write_bytes(out, cut.node.as_slice())?;
    write_bytes(out, b"/")?;
    write_bytes(out, stream_name(cut.stream))
}

fn write_each_cut(out: &mut Text, cut: &[StreamOf]) -> Result<(), NoMemory>
    ensures { OnOk result (out.new ≡ out.old ++ flat_map cut_text (map stream_told cut.now)) }
{
    for stream in cut {
        write_cut(out, stream)?;
    }
    Ok(())
}

// The streams that were cut, where there are any.
fn write_cuts(out: &mut Text, cut: &[StreamOf]) -> Result<(), NoMemory>
    ensures { OnOk result (out.new ≡ out.old ++ cuts_text (map stream_told cut.now)) }
{
    if cut.is_empty() {
        return Ok(());
    }
    write_bytes(out, b" cut")?;
    write_each_cut(out, cut)
}

fn write_revisions(out: &mut Text, revisions: [Rev; 3]) -> Result<(), NoMemory>
    ensures { OnOk result (out.new ≡ out.old ++ revisions_text (three revisions)) }
{
    let [policies, addresses, applied] = revisions;
    write_number(out, policies.0)?;
    write_counted(out, b"/", addresses.0)?;
    write_counted(out, b"/", applied.0)
}

// The node, and the revisions of what its agent holds.
fn write_held(out: &mut Text, node: &Text, revisions: [Rev; 3]) -> Result<(), NoMemory>
    ensures { OnOk result (out.new ≡ out.old ++ (node.now ++ (codes " " ++ revisions_text (three revisions)))) }
{
    write_bytes(out, node.as_slice())?;
    write_bytes(out, b" ")?;
    write_revisions(out, revisions)
}
