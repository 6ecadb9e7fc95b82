//! Reading blocks of addresses.
ghost use Rattle.std.specs.Prelude.{◌≡◌, [], ◌∷◌, List, IfOk, map, option_map, option_copied, codes};
ghost use Rattle.std.specs.List.{list_all, filter_map};
ghost use Rattle.serde_json.specs.View.{view};
ghost use Rattle.cl_types.specs.Prefix.{PrefixData};
ghost use Rattle.cl_types.specs.ReadText.{read_block};
ghost use Rattle.json_fields.specs.Faults.{least};
ghost use Rattle.json_fields.specs.Shapes.{in_field, required, text_faults, unless};
ghost use Rattle.json_fields.specs.Unknown.{other_faults};
ghost use Rattle.json_fields.specs.declared.refusal.ReadRefusal.TheVariants.{BadPrefix};
ghost use Rattle.object_reader.specs.Blocks.{is_within, is_except, are_excepts, cidr_of, except_texts, block_faults, block_or_none, block_value};

use crate::texts::read_block;
use cl_types::{Addr, List, NoMemory, Prefix, Text};
use cluster_types::Block;
use json_fields::{
    ElementText, ReadRefusal, earlier, inner, list_field_fault, object_fault, other_fault,
    required_text_fault, text_or_empty, texts_in,
};
use serde_json::Value;
use std::alloc::Global;

fn is_except(cidr: &Prefix, text: &[u8]) -> bool
    ensures { result ≡ is_except cidr.now (read_block text.now) }
{
    match read_block(text) {
        Some(block) => cidr.holds(block.base) && cidr.len <= block.len,
        None => false,
    }
}

fn all_excepts(cidr: &Prefix, texts: &[Text]) -> bool
    ensures { result ≡ list_all (λ t. is_except cidr.now (read_block t)) texts.now }
{
    for text in texts {
        if !is_except(cidr, text.as_slice()) {
            return false;
        }
    }
    true
}

fn are_excepts(cidr: Option<Prefix>, texts: &[Text]) -> bool
    ensures { result ≡ are_excepts cidr texts.now }
{
    match cidr {
        Some(cidr) => all_excepts(&cidr, texts),
        None => false,
    }
}

#[tactic(auto, unfolding(crate::specs::Blocks::cidr_of))]
fn cidr_of(value: Option<&Value>) -> Option<Prefix>
    ensures { result ≡ cidr_of (option_map (λ v. view v.now) value.entry) }
{
    read_block(text_or_empty(inner(value, "cidr")))
}

#[tactic(auto, unfolding(crate::specs::Blocks::except_texts))]
fn except_texts(alloc: Global, value: Option<&Value>) -> Result<Vec<Text>, NoMemory>
    ensures { IfOk result (λ v. v.items ≡ except_texts (option_map (λ v. view v.now) value.entry)) }
{
    texts_in(alloc, inner(value, "except"))
}

#[tactic(auto, unfolding(json_fields::specs::Faults::least, json_fields::specs::Faults::earlier))]
fn form_fault(alloc: Global, value: Option<&Value>) -> Result<Option<ReadRefusal>, NoMemory>
    ensures { IfOk result (λ f. f ≡ least (unless (are_excepts (cidr_of (option_map (λ v. view v.now) value.entry)) (except_texts (option_map (λ v. view v.now) value.entry))) BadPrefix)) }
{
    let texts = except_texts(alloc, value)?;
    if are_excepts(cidr_of(value), texts.as_slice()) {
        Ok(None)
    } else {
        Ok(Some(ReadRefusal::BadPrefix))
    }
}

// Its own fields are a block and what is taken out of it.
fn named_alone_fault(alloc: Global, value: Option<&Value>) -> Result<Option<ReadRefusal>, NoMemory>
    ensures { IfOk result (λ f. f ≡ least (other_faults (codes "cidr" ∷ codes "except" ∷ []) (option_map (λ v. view v.now) value.entry))) }
{
    other_fault(alloc, ["cidr", "except"].as_slice(), value)
}

/// The fault of a block.
#[tactic(auto, using(json_fields::specs::FaultLaws::least_append), unfolding(crate::specs::Blocks::block_faults))]
pub fn block_fault(alloc: Global, value: Option<&Value>) -> Result<Option<ReadRefusal>, NoMemory>
    ensures { IfOk result (λ f. f ≡ least (block_faults (option_map (λ v. view v.now) value.entry))) }
{
    let other = named_alone_fault(alloc, value)?;
    let cidr = required_text_fault(alloc, "cidr", value)?;
    let except = list_field_fault(alloc, &ElementText, "except", value)?;
    let form = form_fault(alloc, value)?;
    let whole = earlier(earlier(object_fault(alloc, value), other), cidr);
    Ok(earlier(earlier(whole, except), form))
}

fn block_or_none(block: Option<Prefix>) -> Prefix
    ensures { result ≡ block_or_none block }
{
    match block {
        Some(block) => block,
        None => Prefix {
            base: Addr::V4(0),
            len: 32,
        },
    }
}

fn blocks_of(alloc: Global, texts: &[Text]) -> Result<List<Prefix>, NoMemory>
    ensures { IfOk result (λ (l : List _). l ≡ filter_map read_block texts.now) }
{
    let mut blocks = Vec::new(alloc);
    for text in texts {
        if let Some(block) = read_block(text.as_slice()) {
            blocks.push(block)?;
        }
    }
    Ok(List::of(blocks))
}

/// The block that a field has.
#[tactic(auto, unfolding(crate::specs::Blocks::block_value))]
pub fn block_value(alloc: Global, value: Option<&Value>) -> Result<Block, NoMemory>
    ensures { IfOk result (λ (b : _). b ≡ block_value (option_map (λ v. view v.now) value.entry)) }
{
    let texts = except_texts(alloc, value)?;
    let excepts = blocks_of(alloc, texts.as_slice())?;
    Ok(Block {
        cidr: block_or_none(cidr_of(value)),
        excepts,
    })
}
