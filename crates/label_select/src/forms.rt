//! The forms of names and labels.
ghost use Rattle.std.specs.Prelude.{◌≡◌, ◌≢◌, ◌==◌, ℕ, true, List, []};
ghost use Rattle.std.specs.List.{list_all, slice_split, position};
ghost use Rattle.std.specs.Char.{is_ascii_alphanumeric};
ghost use Rattle.cl_types.specs.Bytes.{dot, slash};
ghost use Rattle.cl_types.specs.PolicyName.{HasNoSlash};
ghost use Rattle.label_select.specs.Forms.{is_small, is_part_byte, is_label_byte, ends_pass, is_part, is_namespace_name, is_object_name, is_name_part, is_label_key, is_label_value};

use cl_types::Text;

// How many bytes a namespace's name and a label's name have at most.
const LONGEST_PART: usize = 63;

// How many bytes every other object's name has at most.
const LONGEST_NAME: usize = 253;

/// Whether a namespace can have this name: 1 to 63 of `a` to `z`, `0` to `9` and `-`, with a letter or
/// digit at both ends.
#[tactic(auto, unfolding(crate::specs::Forms::is_namespace_name))]
pub fn is_namespace_name(text: &[u8]) -> bool
    ensures { result ≡ is_namespace_name text.now }
{
    text.len() <= LONGEST_PART && is_part(text)
}

/// Whether an object that is no namespace can have this name: at most 253 bytes, and between its dots the
/// same bytes and ends as in a namespace's name.
#[tactic(auto, unfolding(crate::specs::Forms::is_object_name))]
pub fn is_object_name(text: &[u8]) -> bool
    ensures { result ≡ is_object_name text.now }
{
    text.len() <= LONGEST_NAME && is_joined_parts(text)
}

fn is_joined_parts(text: &[u8]) -> bool
    ensures { result ≡ list_all is_part (slice_split (λ b. b == dot) text.now) }
{
    text.split(|b| *b == b'.').all(|part| is_part(part))
}

/// Whether a label can have this key: a name of 1 to 63 letters, digits, `-`, `_` and `.` with a letter or
/// digit at both ends, or such a name behind a prefix and `/`. The prefix has the form of an object's name.
#[tactic(auto, unfolding(crate::specs::Forms::is_label_key))]
pub fn is_label_key(text: &[u8]) -> bool
    ensures { result ≡ is_label_key text.now }
{
    match slash(text) {
        Some(i) => is_object_name(&text[..i]) && is_name_part(&text[i + 1..]),
        None => is_name_part(text),
    }
}

fn slash(text: &[u8]) -> Option<usize>
    ensures { result ≡ position (λ b. b == slash) text.now }
{
    text.iter().position(|b| *b == b'/')
}

/// Whether a label can have this value: it is empty, or in the form of a key's name.
#[tactic(auto, unfolding(crate::specs::Forms::is_label_value))]
pub fn is_label_value(text: &[u8]) -> bool
    ensures { result ≡ is_label_value text.now }
{
    text.is_empty() || is_name_part(text)
}

/// Whether labels can have all these values.
pub fn are_label_values(texts: &[Text]) -> bool
    ensures { result ≡ list_all is_label_value texts.now }
{
    texts.iter().all(|text| is_label_value(text.as_slice()))
}

#[tactic(auto, unfolding(crate::specs::Forms::is_part))]
fn is_part(text: &[u8]) -> bool
    ensures { result ≡ is_part text.now }
{
    has_part_bytes(text) && begins_and_ends_small(text)
}

fn has_part_bytes(text: &[u8]) -> bool
    ensures { result ≡ list_all is_part_byte text.now }
{
    text.iter().all(|b| is_part_byte(*b))
}

#[tactic(auto, unfolding(crate::specs::Forms::is_name_part))]
fn is_name_part(text: &[u8]) -> bool
    ensures { result ≡ is_name_part text.now }
{
    text.len() <= LONGEST_PART && has_label_bytes(text) && begins_and_ends_alphanumeric(text)
}

fn has_label_bytes(text: &[u8]) -> bool
    ensures { result ≡ list_all is_label_byte text.now }
{
    text.iter().all(|b| is_label_byte(*b))
}

fn begins_and_ends_small(text: &[u8]) -> bool
    ensures { result ≡ ends_pass is_small text.now }
{
    match (text.first(), text.last()) {
        (Some(first), Some(last)) => is_small(*first) && is_small(*last),
        _ => false,
    }
}

fn begins_and_ends_alphanumeric(text: &[u8]) -> bool
    ensures { result ≡ ends_pass is_ascii_alphanumeric text.now }
{
    match (text.first(), text.last()) {
        (Some(first), Some(last)) => first.is_ascii_alphanumeric() && last.is_ascii_alphanumeric(),
        _ => false,
    }
}

fn is_small(b: u8) -> bool
    ensures { result ≡ is_small b }
{
    b.is_ascii_lowercase() || b.is_ascii_digit()
}

fn is_part_byte(b: u8) -> bool
    ensures { result ≡ is_part_byte b }
{
    is_small(b) || b == b'-'
}

fn is_label_byte(b: u8) -> bool
    ensures { result ≡ is_label_byte b }
{
    b.is_ascii_alphanumeric() || b == b'-' || b == b'_' || b == b'.'
}

/// No name has a `/`, and a namespace's name isn't empty.
pub fn names_have_no_slash()
    ensures namespaces { (text : List ℕ) → is_namespace_name text ≡ true → HasNoSlash text × (text ≢ []) }
    ensures objects { (text : List ℕ) → is_object_name text ≡ true → HasNoSlash text }
{}
