//! One line: what it changes, and the block that is printed of it.
ghost use Rattle.std.specs.Prelude.{◌≡◌, ℕ, ◌^◌, ◌<◌, List, [], ◌∷◌, IfOk};
ghost use Rattle.cl_io.specs.Reader.{Hands, KeepsLimit};
ghost use Rattle.run_machine.specs.Machine.{WorldData};
ghost use Rattle.suite_run.specs.Controls.{TakesItem};
ghost use Rattle.suite_run.specs.Fixing.{revision_of};
ghost use Rattle.suite_run.specs.Shown.{IsReady, IsWorld, Makes, Shows};
ghost use Rattle.suite_run.specs.World.{item_of, line_limit, step};
ghost use Rattle.suite_run.specs.declared.item.Item.{Item};
ghost use Rattle.suite_run.specs.declared.item.Item.TheVariants.{Ask, AskHeld, Objects};
ghost use Rattle.suite_run.specs.declared.world.World.{World};

use crate::blocks::{LineBlock, block_of};
use crate::item::{Item, item_of};
use crate::world::{LineOutcome, World};
use cl_io::Line;
use cl_types::{List, NoMemory, Question, Text};
use cluster_objects::Change;
use std::alloc::Global;

/// The world after a line, and the line's block.
#[derive(Drop)]
pub(crate) struct Taken {
    pub(crate) world: World,
    pub(crate) block: LineBlock,
}

/// Takes the line that was handed out as the one with this number.
pub(crate) fn take_line(
    alloc: Global,
    world: World,
    number: u64,
    line: &Line,
) -> Result<Taken, NoMemory>
    requires ready { IsReady world }
    requires revision { revision_of world.early < 2 ^ 32 }
    ensures { (bytes : List ℕ) → Hands line.now (bytes ∷ []) → KeepsLimit line_limit line.now → (w : WorldData) → IsWorld world w
        → IfOk result (λ t. Shows number (step w (item_of bytes)) t.world t.block) }
{
    let item = item_of(alloc, line)?;
    take_item(alloc, world, number, item)
}

// The world, with the block of what is told of the line.
fn with_block(
    alloc: Global,
    world: World,
    number: u64,
    said: LineOutcome<'static>,
) -> Result<Taken, NoMemory>
    ensures { (item : Item) (old : World) → Makes item old world said.entry → TakesItem number item old result }
{
    let block = block_of(alloc, number, &said)?;
    Ok(Taken { world, block })
}

fn take_changes(
    alloc: Global,
    world: World,
    number: u64,
    changes: List<Change>,
) -> Result<Taken, NoMemory>
    requires ready { IsReady world }
    requires revision { revision_of world.early < 2 ^ 32 }
    ensures { TakesItem number (Objects changes) world result }
{
    let told = world.change(alloc, changes)?;
    with_block(alloc, told.world, number, told.outcome)
}

fn take_question(
    alloc: Global,
    world: World,
    number: u64,
    node: Text,
    question: Question,
) -> Result<Taken, NoMemory>
    requires { IsReady world }
    ensures { TakesItem number (Ask node question) world result }
{
    let block = block_of(alloc, number, &world.ask(&node, &question))?;
    Ok(Taken { world, block })
}

// A question about what the node's agent holds.
fn take_held_question(
    alloc: Global,
    world: World,
    number: u64,
    node: Text,
    question: Question,
) -> Result<Taken, NoMemory>
    requires { IsReady world }
    ensures { TakesItem number (AskHeld node question) world result }
{
    let block = block_of(alloc, number, &world.ask_held(node, &question))?;
    Ok(Taken { world, block })
}

fn take_item(alloc: Global, mut world: World, number: u64, item: Item) -> Result<Taken, NoMemory>
    requires ready { IsReady world }
    requires revision { revision_of world.early < 2 ^ 32 }
    ensures { TakesItem number item world result }
{
    match item {
        Item::Objects(changes) => take_changes(alloc, world, number, changes),
        Item::Ignored(kind) => with_block(alloc, world, number, LineOutcome::Ignored(kind)),
        Item::Ask { node, question } => take_question(alloc, world, number, node, question),
        Item::AskHeld { node, question } => {
            take_held_question(alloc, world, number, node, question)
        }
        Item::Deliver {
            node,
            stream,
            count,
        } => {
            let delivered = world.deliver(node.as_ref(), stream, count)?;
            with_block(alloc, world, number, delivered)
        }
        Item::Cut { node, stream } => {
            let said = world.cut(&node, stream);
            with_block(alloc, world, number, said)
        }
        Item::Rejoin { node, stream } => {
            let rejoined = world.rejoin(&node, stream)?;
            with_block(alloc, world, number, rejoined)
        }
        Item::Settle => {
            let settled = world.settle()?;
            with_block(alloc, world, number, settled)
        }
        Item::Blank => with_block(alloc, world, number, LineOutcome::Silent),
        Item::Refused(refusal) => with_block(alloc, world, number, LineOutcome::Refused(refusal)),
    }
}
