//! What a line says, or why it is refused.
ghost use Rattle.std.specs.Prelude.{◌≡◌, ℕ, List, [], ◌∷◌, IfOk, Result};
ghost use Rattle.std.specs.List.{list_all};
ghost use Rattle.cl_io.specs.Reader.{Hands, KeepsLimit};
ghost use Rattle.json_fields.specs.Answer.{Gives};
ghost use Rattle.json_fields.specs.declared.refusal.ReadRefusal.{ReadRefusal};
ghost use Rattle.policy_reader.specs.declared.item.LineItem.{LineItem};
ghost use Rattle.suite_run.specs.World.{line_limit, item_of, item_read, item_of_line, item_of_control, item_of_order, built_objects, is_empty, has_references, built_policy, built};

use cl_io::Line;
use cl_types::{AgentOrder, List, NoMemory, Question, Stream, Text};
use cluster_objects::Change;
use cluster_types::{Object, RefItem, RefPolicy};
use control_lines::{Control, NodeOrder};
use json_fields::ReadRefusal;
use line_refusals::Refusal;
use policy_reader::{LineItem, read_line};
use std::alloc::Global;
use std::mem;

/// What a line says.
#[derive(Debug, Drop)]
pub(crate) enum Item {
    Objects(List<Change>),
    /// An object of this kind isn't looked at.
    Ignored(Text),
    /// A question about the policies.
    Ask {
        node: Text,
        question: Question,
    },
    /// A question about what a node's agent holds.
    AskHeld {
        node: Text,
        question: Question,
    },
    /// Messages to be delivered: of one node or of all, of one stream or of all, at most so many of each or all.
    Deliver {
        node: Option<Text>,
        stream: Option<Stream>,
        count: Option<u32>,
    },
    Cut {
        node: Text,
        stream: Stream,
    },
    Rejoin {
        node: Text,
        stream: Stream,
    },
    Settle,
    Blank,
    Refused(Refusal),
}

/// What a line says that a reader handed out.
#[tactic(auto, unfolding(crate::specs::World::item_of))]
pub(crate) fn item_of(alloc: Global, line: &Line) -> Result<Item, NoMemory>
    ensures { (bytes : List ℕ) → Hands line.now (bytes ∷ []) → KeepsLimit line_limit line.now
        → IfOk result (λ item. item_of bytes ≡ item) }
{
    match line {
        Line::Whole(text) => item_read(alloc, read_line(alloc, text.as_slice())),
        Line::TooLong(count) => Ok(Item::Refused(Refusal::TooLong(*count))),
        Line::End => Ok(Item::Blank),
    }
}

fn item_read(alloc: Global, read: Result<LineItem, ReadRefusal>) -> Result<Item, NoMemory>
    ensures { (was : Result LineItem ReadRefusal) → Gives (λ (x : LineItem). x) read was → IfOk result (λ item. item_read was ≡ item) }
{
    match read {
        Ok(item) => item_of_line(alloc, item),
        Err(ReadRefusal::NoMemory) => Err(NoMemory),
        Err(refusal) => Ok(Item::Refused(Refusal::Reading(refusal))),
    }
}

fn item_of_line(alloc: Global, item: LineItem) -> Result<Item, NoMemory>
    ensures { IfOk result (λ i. item_of_line item ≡ i) }
{
    match item {
        LineItem::Objects(items) => built_objects(alloc, items),
        LineItem::Ignored(kind) => Ok(Item::Ignored(kind)),
        LineItem::Control(control) => Ok(item_of_control(control)),
        LineItem::Order(order) => Ok(item_of_order(order)),
        LineItem::Blank => Ok(Item::Blank),
    }
}

fn item_of_control(control: Control) -> Item
    ensures { result ≡ item_of_control control }
{
    match control {
        Control::Deliver {
            node,
            stream,
            count,
        } => Item::Deliver {
            node,
            stream,
            count,
        },
        Control::Cut { node, stream } => Item::Cut { node, stream },
        Control::Rejoin { node, stream } => Item::Rejoin { node, stream },
        Control::Settle => Item::Settle,
        Control::Ask { node, question } => Item::Ask { node, question },
        _ => Item::Refused(Refusal::NotBuilt),
    }
}

// Of what agents are told to do, questions are answered, where they needn't wait.
fn item_of_order(order: NodeOrder) -> Item
    ensures { result ≡ item_of_order order order.order }
{
    let NodeOrder {
        node,
        order,
        settled,
    } = order;
    match order {
        AgentOrder::Ask(question) if !settled => Item::AskHeld { node, question },
        _ => Item::Refused(Refusal::NotBuilt),
    }
}

// The changes of objects that are all built, or a refusal of the whole line.
fn built_objects(alloc: Global, mut items: List<RefItem>) -> Result<Item, NoMemory>
    ensures { IfOk result (λ i. built_objects items ≡ i) }
{
    let items = mem::replace(items.vec_mut(), Vec::new(alloc));
    let mut changes = Vec::with_capacity(alloc, items.len())?;
    for item in items {
        match built(item) {
            Some(change) => changes.push(change)?,
            None => return Ok(Item::Refused(Refusal::NotBuilt)),
        }
    }
    Ok(Item::Objects(List::of(changes)))
}

// The change that an item comes to, where what it says is built.
fn built(item: RefItem) -> Option<Change>
    ensures { result ≡ built item }
{
    match item {
        RefItem::Plain(change) => Some(change),
        RefItem::PutPolicy(put) => built_policy(put),
        _ => None,
    }
}

fn built_policy(put: RefPolicy) -> Option<Change>
    ensures { result ≡ built_policy put }
{
    if has_references(&put) {
        None
    } else {
        Some(Change::Put(Object::Policy(put.policy)))
    }
}

fn has_references(put: &RefPolicy) -> bool
    ensures { result ≡ has_references put.now }
{
    !is_empty(&put.applied_refs) || !are_empty(put.rule_refs.as_slice())
}

fn are_empty(lists: &[List<Text>]) -> bool
    ensures { result ≡ list_all is_empty lists.now }
{
    lists.iter().all(|names| is_empty(names))
}

fn is_empty(names: &List<Text>) -> bool
    ensures { result ≡ is_empty names.now }
{
    matches!(names.as_slice(), [])
}
