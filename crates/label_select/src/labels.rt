ghost use Rattle.std.proofs.Common.{rules};
ghost use Rattle.std.proofs.lemmas.Grind.{common_steps};
ghost use Rattle.std.specs.Prelude.{◌≡◌, ◌≢◌, ℕ, List as Items, [], OnOk, OnErr, option_copied};
ghost use Rattle.cl_types.specs.Ascending.{Ascends};
ghost use Rattle.cl_types.specs.Text.{text_order};
ghost use Rattle.label_select.specs.declared.labels.Label.{Label};

use cl_types::{Copies, Keyed, List, NoMemory, Same, Text};
use std::alloc::Global;
use std::marker::Model;

/// One label of an object: a key and its value.
#[derive(Clone, Debug, Drop)]
pub struct Label {
    pub key: Text,
    pub value: Text,
}

impl Keyed for Label {
    type Key = Text;

    ghost key = { λ l. l.key };

    fn key(&self) -> &Text {
        &self.key
    }
}

impl Copies for Label {
    ghost exact = { λ x y h. Prim.search (rules, common_steps) };
}

impl Same for Label {
    fn same(&self, other: &Label) -> bool {
        self.key.same(&other.key) && self.value.same(&other.value)
    }
}

/// The labels of an object: a finite map of texts.
#[derive(Clone, Debug, Drop)]
pub struct Labels {
    labels: List<Label>,
}

impl Model for Labels {
    ghost use Rattle.std.specs.Prelude.{List};
    ghost use Rattle.cl_types.specs.Text.{text_order};
    ghost use Rattle.cl_types.specs.Ascending.{Ascends};
    ghost use Rattle.label_select.specs.declared.labels.Label.{Label};

    ghost Value = { List Label };

    ghost view = { λ l. l.labels };

    ghost invariant = { λ l. Ascends (λ (x : Label). x.key) (text_order) l.labels };
}

impl Labels {
    ghost use Rattle.label_select.specs.Selection.{value_at, put_label};

    /// No labels. It does not allocate.
    pub fn new(alloc: Global) -> Labels
        ensures { result ≡ [] }
    {
        Labels {
            labels: List::new(alloc),
        }
    }

    /// The value of the label with this key.
    pub fn get(&self, key: &Text) -> Option<&Text>
        ensures { option_copied result ≡ value_at self.now key.now }
    {
        let label = cl_types::find(self.labels.as_slice(), key)?;
        Some(&label.value)
    }

    /// Inserts a label, in place of the one with its key.
    pub fn put(&mut self, key: Text, value: Text) -> Result<(), NoMemory>
        ensures ok { OnOk result (self.new ≡ put_label self.old key value) }
        ensures there { OnOk result (value_at self.new key ≡ Some value) }
        ensures others { OnOk result ((k : Items ℕ) → k ≢ key → value_at self.new k ≡ value_at self.old k) }
        ensures err { OnErr result (self.new ≡ self.old) }
    {
        cl_types::put(self.labels.vec_mut(), Label { key, value })
    }
}

impl Copies for Labels {
    ghost exact = { λ x y h. Prim.search (rules, common_steps) };
}

impl Same for Labels {
    fn same(&self, other: &Labels) -> bool {
        self.labels.same(&other.labels)
    }
}

/// What labels keep: they ascend by their keys. It does nothing.
pub fn labels_form(labels: &Labels)
    ensures { Ascends (λ (l : Label). l.key) text_order labels.now }
{
    let _labels = &labels.labels;
}
