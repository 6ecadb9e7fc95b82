//! The texts of groups.
ghost use Rattle.std.specs.Prelude.{◌≡◌, ◌++◌, map, codes, OnOk, OnErr};
ghost use Rattle.cl_types.specs.Written.{Begins};
ghost use Rattle.label_select.specs.Canonical.{IsSelection};
ghost use Rattle.label_select.specs.Group.{Group, IsScope, IsWholeScope, IsGroup};
ghost use Rattle.label_select.specs.Written.{listed, need_text, selector_text, scope_text, group_text};

use crate::group::{GroupKey, Scope};
use crate::selector::{Need, Op, Selector};
use cl_types::{NoMemory, Text, Written, write_bytes};

impl Written for Need {
    ghost text = { need_text };

    fn append(&self, out: &mut Text) -> Result<(), NoMemory> {
        match self.op {
            Op::OneOf => append_values(out, &self.key, b" in (", self.values.as_slice()),
            Op::NoneOf => append_values(out, &self.key, b" notin (", self.values.as_slice()),
            Op::Present => self.key.write(out),
            Op::Missing => {
                write_bytes(out, b"!")?;
                self.key.write(out)
            }
        }
    }
}

fn append_values(out: &mut Text, key: &Text, words: &[u8], values: &[Text]) -> Result<(), NoMemory>
    ensures ok { OnOk result (out.new ≡ out.old ++ (key.now ++ (words.now ++ (listed values.now ++ codes ")")))) }
    ensures err { OnErr result (Begins out.old out.new) }
{
    key.write(out)?;
    write_bytes(out, words)?;
    append_listed(out, values)?;
    write_bytes(out, b")")
}

fn append_listed<T: Written>(out: &mut Text, items: &[T]) -> Result<(), NoMemory>
    ensures ok { OnOk result (out.new ≡ out.old ++ listed (map T.text items.now)) }
    ensures err { OnErr result (Begins out.old out.new) }
{
    for (i, item) in items.iter().enumerate() {
        if i > 0 {
            write_bytes(out, b",")?;
        }
        item.append(out)?;
    }
    Ok(())
}

impl Written for Selector {
    ghost text = { selector_text };

    fn append(&self, out: &mut Text) -> Result<(), NoMemory> {
        write_bytes(out, b"[")?;
        append_listed(out, self.needs.as_slice())?;
        write_bytes(out, b"]")
    }
}

impl Written for Scope {
    ghost text = { scope_text };

    fn append(&self, out: &mut Text) -> Result<(), NoMemory> {
        match self {
            Scope::Namespace(name) => name.write(out),
            Scope::Namespaces(selector) => selector.append(out),
        }
    }
}

impl Written for GroupKey {
    ghost text = { group_text };

    fn append(&self, out: &mut Text) -> Result<(), NoMemory> {
        self.scope.append(out)?;
        write_bytes(out, b"/")?;
        self.pods.append(out)
    }
}

/// Appends the group's text: the namespace's name or the selector of namespaces, `/`, and the selector of
/// pods.
pub fn write_group(out: &mut Text, g: &GroupKey) -> Result<(), NoMemory>
    ensures ok { OnOk result (out.new ≡ out.old ++ group_text g.now) }
    ensures err { OnErr result (out.new ≡ out.old) }
    ensures form { OnOk result (IsGroup g.now) }
{
    group_form(g);
    g.write(out)
}

/// What the parts of a group keep. It does nothing.
pub fn group_form(g: &GroupKey)
    ensures { IsGroup g.now }
{
    scope_form(&g.scope);
    selector_form(&g.pods);
}

fn scope_form(scope: &Scope)
    ensures { IsScope scope.now → IsWholeScope scope.now }
{
    if let Scope::Namespaces(selector) = scope {
        selector_form(selector);
    }
}

fn selector_form(selector: &Selector)
    ensures { IsSelection selector.now }
{
    let _needs = &selector.needs;
}

/// Different groups have different texts.
pub fn group_texts_differ()
    ensures { (a b : Group) → IsGroup a → IsGroup b → group_text a ≡ group_text b → a ≡ b }
{}
