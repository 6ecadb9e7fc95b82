ghost use Rattle.std.specs.Prelude.{◌≡◌, [], unwrap_or, option_copied};
ghost use Rattle.label_select.specs.Selection.{value_at, put_label, meets, selects};

use crate::labels::Labels;
use crate::selector::{Need, Selector};
use cl_types::Text;

impl Selector {
    /// Whether it selects what has these labels and one more, which is set over them.
    pub fn selects_with(&self, labels: Option<&Labels>, key: &[u8], value: &Text) -> bool
        ensures { result ≡ selects self.now (put_label (unwrap_or (option_copied labels.entry) []) key.now value.now) }
    {
        self.needs
            .as_slice()
            .iter()
            .all(|need| need.is_met_with(labels, key, value))
    }
}

impl Need {
    fn is_met_with(&self, labels: Option<&Labels>, key: &[u8], value: &Text) -> bool
        ensures { result ≡ meets (put_label (unwrap_or (option_copied labels.entry) []) key.now value.now) self.now }
    {
        self.allows(value_with(labels, key, value, &self.key))
    }
}

// The value at a key of the labels with one more.
fn value_with<'a>(
    labels: Option<&'a Labels>,
    key: &[u8],
    value: &'a Text,
    wanted: &Text,
) -> Option<&'a Text>
    ensures { option_copied result ≡ value_at (put_label (unwrap_or (option_copied labels.entry) []) key.now value.now) wanted.now }
{
    if wanted.as_slice() == key {
        return Some(value);
    }
    match labels {
        Some(labels) => labels.get(wanted),
        None => None,
    }
}
