//! Texts of addresses and blocks by their family.
ghost use Rattle.std.specs.Prelude.{◌≡◌};
ghost use Rattle.cl_types.specs.ReadText.{read_address, read_block};
ghost use Rattle.object_reader.specs.Texts.{is_four, where_four, where_six, four_of, six_of, has_colon};

use cl_types::{Addr, Prefix, read_addr, read_prefix, texts_are_read_as_functions};

/// The address that the text is a form of.
pub fn read_address(text: &[u8]) -> Option<Addr>
    ensures { result ≡ read_address text.now }
{
    texts_are_read_as_functions();
    match read_addr(text) {
        Ok(address) => Some(address),
        Err(_) => None,
    }
}

/// The block that the text is a form of.
pub fn read_block(text: &[u8]) -> Option<Prefix>
    ensures { result ≡ read_block text.now }
{
    texts_are_read_as_functions();
    match read_prefix(text) {
        Ok(block) => Some(block),
        Err(_) => None,
    }
}

/// Whether the address is of IPv4.
pub(crate) fn is_four(address: Addr) -> bool
    ensures { result ≡ is_four address }
{
    match address {
        Addr::V4(_) => true,
        Addr::V6(_) => false,
    }
}

/// The IPv4 address that the text is a form of.
#[tactic(auto, unfolding(crate::specs::Texts::four_of))]
pub fn four_of(text: &[u8]) -> Option<Addr>
    ensures { result ≡ four_of text.now }
{
    let Some(address) = read_address(text) else {
        return None;
    };
    if is_four(address) {
        Some(address)
    } else {
        None
    }
}

/// The IPv6 address that the text is a form of.
#[tactic(auto, unfolding(crate::specs::Texts::six_of))]
pub fn six_of(text: &[u8]) -> Option<Addr>
    ensures { result ≡ six_of text.now }
{
    let Some(address) = read_address(text) else {
        return None;
    };
    if is_four(address) {
        None
    } else {
        Some(address)
    }
}

/// Whether a byte of the text is a colon.
pub fn has_colon(text: &[u8]) -> bool
    ensures { result ≡ has_colon text.now }
{
    text.iter().any(|b| *b == b':')
}
