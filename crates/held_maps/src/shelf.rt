ghost use Rattle.std.specs.Prelude.{◌≡◌, [], ℕ, ◌+◌, List as Items, length, IfErr, IfOk, option_copied};
ghost use Rattle.cl_types.specs.Ascending.{Ascends, IsGap, IsPlace, found};
ghost use Rattle.cl_types.specs.Text.{text_order};
ghost use Rattle.held_maps.specs.Held.{policy_title, egress_title};
ghost use Rattle.label_select.specs.Written.{group_text};
ghost use Rattle.watch_streams.specs.Names.{at_text, object_text};
ghost use Rattle.held_maps.specs.Rows.{HasRows, IsRoom};

use crate::rows::Rows;
use cl_types::{Copies, List, NoMemory, Text, search};
use label_select::{GroupKey, compare_group};
use std::alloc::Global;
use std::cmp::Ordering;
use std::marker::Model;
use watch_streams::{NetEgress, NetPolicy, StreamObject};

/// What stands in the order of its text.
pub(crate) trait Titled {
    ghost title: { Self → Items ℕ };
}

impl Titled for NetPolicy {
    ghost title = { policy_title };
}

impl Titled for NetEgress {
    ghost title = { egress_title };
}

impl Titled for StreamObject {
    ghost title = { object_text };
}

fn copy_texts(texts: &Vec<Text>) -> Result<Vec<Text>, NoMemory>
    ensures { IfOk result (λ copy. copy.items ≡ texts.now.items) }
{
    let mut copy = Vec::with_capacity(*texts.allocator(), texts.len())?;
    for text in texts {
        copy.push(text.copy()?)?;
    }
    Ok(copy)
}

// How the text stands to that of the group.
fn order_at(title: &Text, g: &GroupKey) -> Ordering
    ensures { result ≡ text_order title.now (group_text g.now) }
{
    compare_group(g, title).reverse()
}

// The place of the group's text, or where to insert it.
fn search_group(titles: &[Text], g: &GroupKey) -> Result<usize, usize>
    requires { Ascends (λ t. t) text_order titles.now }
    ensures found { IfOk result (IsPlace (λ t. text_order t (group_text g.now)) titles.now) }
    ensures absent { IfErr result (IsGap (λ t. text_order t (group_text g.now)) titles.now) }
{
    titles.binary_search_by(
        |title: &Text| -> Ordering
            ensures { result ≡ text_order title.now (group_text g.entry.now) }
        { order_at(title, g) },
    )
}

/// Objects in the order of their texts, which are kept beside them.
#[derive(Drop)]
pub(crate) struct Shelf<T: Titled> {
    titles: Vec<Text>,
    objects: List<T>,
}

impl<T: Titled> Model for Shelf<T> {
    ghost use Rattle.std.specs.Prelude.{List as Items};
    ghost use Rattle.std.specs.Coded.{coded_list};
    ghost use Rattle.held_maps.specs.Shelf.{AreTitles};

    ghost Value = { Items T };

    ghost coded = { coded_list T.code };

    ghost view = { λ s. s.objects };

    ghost invariant = { λ s. AreTitles T.title s.titles.items s.objects };
}

impl<T: Titled> Shelf<T> {
    pub(crate) fn new(alloc: Global) -> Shelf<T>
        ensures { result ≡ [] }
    {
        Shelf {
            titles: Vec::new(alloc),
            objects: List::new(alloc),
        }
    }

    pub(crate) fn objects(&self) -> &List<T>
        ensures value { result.now ≡ self.now }
        ensures ascend { Ascends T.title text_order self.now }
    {
        &self.objects
    }

    /// The object with the text.
    pub(crate) fn find(&self, title: &Text) -> Option<&T>
        ensures { option_copied result ≡ found (λ x. text_order (T.title x) title.now) self.now }
    {
        match search(self.titles.as_slice(), title) {
            Ok(i) => Some(&self.objects.as_slice()[i]),
            Err(_) => None,
        }
    }

    pub(crate) fn alloc(&self) -> Global {
        *self.titles.allocator()
    }

    /// The rows as they stand.
    pub(crate) fn of_rows(rows: Rows<T>) -> Shelf<T>
        requires { HasRows T.title 0 rows }
        ensures { result ≡ rows.objects.items }
    {
        let Rows { titles, objects } = rows;
        Shelf {
            titles,
            objects: List::of(objects),
        }
    }

    /// Moves all that is there to the places. It does not allocate.
    pub(crate) fn move_to(&mut self, rows: &mut Rows<T>)
        requires { IsRoom (length self.old) rows.old }
        ensures objects { rows.new.objects.items ≡ self.old }
        ensures rows { (more : ℕ) → IsRoom (length self.old + more) rows.old → HasRows T.title more rows.new }
    {
        let _ = rows.titles.append(&mut self.titles);
        let _ = rows.objects.append(self.objects.vec_mut());
    }
}

impl Shelf<StreamObject> {
    /// What stands under the text of the group. It does not allocate.
    pub(crate) fn find_group(&self, g: &GroupKey) -> Option<&StreamObject>
        ensures { option_copied result ≡ found (at_text (group_text g.now)) self.now }
    {
        match search_group(self.titles.as_slice(), g) {
            Ok(i) => Some(&self.objects.as_slice()[i]),
            Err(_) => None,
        }
    }
}

impl<T: Titled + Copies> Shelf<T> {
    /// The same objects, once more.
    pub(crate) fn copy(&self) -> Result<Shelf<T>, NoMemory>
        ensures { IfOk result (λ copy. copy ≡ self.now) }
    {
        Ok(Shelf {
            titles: copy_texts(&self.titles)?,
            objects: self.objects.copy()?,
        })
    }
}
