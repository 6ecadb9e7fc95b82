//! The fault that counts, and the paths to where faults are.
ghost use Rattle.std.specs.Prelude.{◌≡◌, ◌++◌, [], IfOk, Some, None, option_map};
ghost use Rattle.json_fields.specs.Faults.{rank, earlier, inside, under, index_step};
ghost use Rattle.json_fields.specs.declared.refusal.ReadRefusal.TheVariants.{BadShape};

use crate::refusal::ReadRefusal;
use cl_types::{NoMemory, Text, write_bytes, write_number};
use std::alloc::Global;

// The byte that begins the step to an element of a list.
const BRACKET: u8 = b'[';

impl ReadRefusal {
    ghost use Rattle.std.specs.Prelude.{◌≡◌};
    ghost use Rattle.json_fields.specs.Faults.{rank};

    // Its place in the order in which refusals count.
    fn rank(&self) -> u8
        ensures { result ≡ rank self.now }
    {
        match self {
            ReadRefusal::NotJson => 0,
            ReadRefusal::BadShape(_) => 1,
            ReadRefusal::Unsupported(_) => 2,
            ReadRefusal::BadName => 3,
            ReadRefusal::BadLabel => 4,
            ReadRefusal::BadSelector => 5,
            ReadRefusal::BadAddr => 6,
            ReadRefusal::BadPrefix => 7,
            ReadRefusal::BadPort => 8,
            ReadRefusal::BadPriority => 9,
            ReadRefusal::BadAction => 10,
            ReadRefusal::BadControl => 11,
            ReadRefusal::NoMemory => 12,
        }
    }
}

/// The fault that counts of two: the first, but where only the second is there or comes earlier in the order of
/// [`ReadRefusal`].
#[tactic(auto, unfolding(crate::specs::Faults::earlier))]
pub fn earlier(first: Option<ReadRefusal>, second: Option<ReadRefusal>) -> Option<ReadRefusal>
    ensures { result ≡ earlier first second }
{
    let Some(f) = first else {
        return second;
    };
    let Some(g) = second else {
        return Some(f);
    };
    if f.rank().cmp(&g.rank()).is_gt() {
        Some(g)
    } else {
        Some(f)
    }
}

/// The fault that a value is missing or of another kind, as it is told at the value itself.
pub fn bad_shape(alloc: Global) -> ReadRefusal
    ensures { result ≡ BadShape [] }
{
    ReadRefusal::BadShape(Text::new(alloc))
}

/// A fault of the field with this name, as it is told of the object.
pub fn in_field(
    alloc: Global,
    name: &str,
    fault: Option<ReadRefusal>,
) -> Result<Option<ReadRefusal>, NoMemory>
    ensures { IfOk result (λ f. f ≡ option_map (under name.now) fault) }
{
    match fault {
        Some(ReadRefusal::BadShape(path)) => {
            let step = Text::of(Vec::from_slice(alloc, name.as_bytes())?);
            Ok(Some(ReadRefusal::BadShape(inside(step, &path)?)))
        }
        other => Ok(other),
    }
}

/// A fault of the element at this place of a list, as it is told of the list.
pub fn at_index(
    alloc: Global,
    index: usize,
    fault: Option<ReadRefusal>,
) -> Result<Option<ReadRefusal>, NoMemory>
    ensures { IfOk result (λ f. f ≡ option_map (under (index_step index)) fault) }
{
    match fault {
        Some(ReadRefusal::BadShape(path)) => {
            Ok(Some(ReadRefusal::BadShape(inside(step_to(alloc, index)?, &path)?)))
        }
        other => Ok(other),
    }
}

// The path behind the step that leads to where it begins.
#[tactic(auto, unfolding(crate::specs::Faults::inside))]
fn inside(mut step: Text, path: &Text) -> Result<Text, NoMemory>
    ensures { IfOk result (λ t. t ≡ inside step path.now) }
{
    match path.as_slice() {
        [] => Ok(step),
        [BRACKET, ..] => {
            write_bytes(&mut step, path.as_slice())?;
            Ok(step)
        }
        _ => {
            write_bytes(&mut step, b".".as_slice())?;
            write_bytes(&mut step, path.as_slice())?;
            Ok(step)
        }
    }
}

// `[0]` for the first element of a list.
fn step_to(alloc: Global, index: usize) -> Result<Text, NoMemory>
    ensures { IfOk result (λ t. t ≡ index_step index) }
{
    let mut step = Text::new(alloc);
    write_bytes(&mut step, b"[".as_slice())?;
    write_number(&mut step, index as u64)?;
    write_bytes(&mut step, b"]".as_slice())?;
    Ok(step)
}
