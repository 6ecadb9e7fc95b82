//! How the text of a group compares with another text, without writing it.
ghost use Rattle.std.specs.Prelude.{◌≡◌, ◌++◌, List as Items, ℕ, codes, map};
ghost use Rattle.cl_types.specs.Text.{text_order};
ghost use Rattle.label_select.specs.Comparing.{come_out, compared, met, met_byte};
ghost use Rattle.label_select.specs.Written.{group_text, listed, need_text, op_text, scope_text, selector_text};
ghost use Rattle.std.specs.declared.cmp.Ordering.TheVariants.{Equal};

use crate::group::{GroupKey, Scope};
use crate::selector::{Need, Op, Selector};
use cl_types::Text;
use std::cmp::Ordering;
use std::marker::Model;

/// A text that is compared with bytes as they come.
#[derive(Drop)]
struct Comparison<'a> {
    rest: &'a [u8],
    order: Ordering,
}

impl<'a> Model for Comparison<'a> {
    ghost use Rattle.label_select.specs.Comparing.{ComparisonData};

    ghost Value = { ComparisonData };

    ghost view = { λ c. record { rest = c.rest.now; order = c.order } };
}

impl<'a> Comparison<'a> {
    fn meet_byte(&mut self, byte: u8)
        ensures { self.new ≡ met_byte self.old byte }
    {
        if self.order != Ordering::Equal {
            return;
        }
        match self.rest.split_first() {
            None => self.order = Ordering::Greater,
            Some((first, rest)) => {
                self.order = byte.cmp(first);
                self.rest = rest;
            }
        }
    }

    fn meet(&mut self, bytes: &[u8])
        ensures { self.new ≡ met self.old bytes.now }
    {
        for byte in bytes {
            self.meet_byte(*byte);
        }
    }

    fn come_out(&self) -> Ordering
        ensures { result ≡ come_out self.now }
    {
        if self.order == Ordering::Equal && !self.rest.is_empty() {
            return Ordering::Less;
        }
        self.order
    }
}

/// What has a text that can be compared without writing it.
trait Met {
    ghost text: { Self → Items ℕ };

    fn meet(&self, c: &mut Comparison)
        ensures { c.new ≡ met c.old (text self.now) };
}

impl Met for Text {
    ghost text = { λ t. t };

    fn meet(&self, c: &mut Comparison) {
        c.meet(self.as_slice());
    }
}

fn meet_listed<T: Met>(c: &mut Comparison, items: &[T])
    ensures { c.new ≡ met c.old (listed (map T.text items.now)) }
{
    for (i, item) in items.iter().enumerate() {
        if i > 0 {
            c.meet(b",");
        }
        item.meet(c);
    }
}

fn meet_values(c: &mut Comparison, key: &Text, words: &[u8], values: &[Text])
    ensures { c.new ≡ met c.old (key.now ++ (words.now ++ (listed values.now ++ codes ")"))) }
{
    c.meet(key.as_slice());
    c.meet(words);
    meet_listed(c, values);
    c.meet(b")");
}

impl Met for Need {
    ghost text = { need_text };

    fn meet(&self, c: &mut Comparison) {
        match self.op {
            Op::OneOf => meet_values(c, &self.key, b" in (", self.values.as_slice()),
            Op::NoneOf => meet_values(c, &self.key, b" notin (", self.values.as_slice()),
            Op::Present => c.meet(self.key.as_slice()),
            Op::Missing => {
                c.meet(b"!");
                c.meet(self.key.as_slice());
            }
        }
    }
}

impl Met for Selector {
    ghost text = { selector_text };

    fn meet(&self, c: &mut Comparison) {
        c.meet(b"[");
        meet_listed(c, self.needs.as_slice());
        c.meet(b"]");
    }
}

impl Met for Scope {
    ghost text = { scope_text };

    fn meet(&self, c: &mut Comparison) {
        match self {
            Scope::Namespace(name) => c.meet(name.as_slice()),
            Scope::Namespaces(selector) => selector.meet(c),
        }
    }
}

impl Met for GroupKey {
    ghost text = { group_text };

    fn meet(&self, c: &mut Comparison) {
        self.scope.meet(c);
        c.meet(b"/");
        self.pods.meet(c);
    }
}

fn compared_with<'a>(text: &'a Text) -> Comparison<'a>
    ensures { result ≡ compared text.now Equal }
{
    Comparison {
        rest: text.as_slice(),
        order: Ordering::Equal,
    }
}

/// How the group's text compares with the text, by bytes. It does not allocate.
pub fn compare_group(g: &GroupKey, text: &Text) -> Ordering
    ensures { result ≡ text_order (group_text g.now) text.now }
{
    let mut c = compared_with(text);
    g.meet(&mut c);
    c.come_out()
}
