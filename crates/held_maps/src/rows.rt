ghost use Rattle.std.specs.Prelude.{◌≡◌, ℕ, ◌+◌, IfOk, length};
ghost use Rattle.cl_types.specs.Ascending.{put, without};
ghost use Rattle.cl_types.specs.Text.{text_order};

use crate::shelf::Titled;
use cl_types::{NoMemory, Text, search};
use std::alloc::Global;

/// Objects in the order of their texts, with these texts, while they are edited.
#[derive(Drop)]
pub(crate) struct Rows<T> {
    pub(crate) titles: Vec<Text>,
    pub(crate) objects: Vec<T>,
}

impl<T: Titled + Drop> Rows<T> {
    ghost use Rattle.held_maps.specs.Rows.{HasRows, IsRoom};

    /// No rows, with places for so many.
    pub(crate) fn with_places(alloc: Global, places: usize) -> Result<Rows<T>, NoMemory>
        ensures { IfOk result (IsRoom places) }
    {
        Ok(Rows {
            titles: Vec::with_capacity(alloc, places)?,
            objects: Vec::with_capacity(alloc, places)?,
        })
    }

    /// Inserts the object at its text, in place of what had it. It does not allocate.
    pub(crate) fn put(&mut self, title: Text, object: T)
        requires title { title ≡ T.title object }
        requires rows { HasRows T.title 1 self.old }
        ensures objects { self.new.objects.items ≡ put (λ x. text_order (T.title x) (T.title object)) object self.old.objects.items }
        ensures rows { (more : ℕ) → HasRows T.title (more + 1) self.old → HasRows T.title more self.new }
    {
        match search(self.titles.as_slice(), &title) {
            Ok(i) => {
                self.titles[i] = title;
                self.objects[i] = object;
            }
            Err(i) => {
                let _ = self.titles.insert(i, title);
                let _ = self.objects.insert(i, object);
            }
        }
    }

    /// Removes the object with the text.
    pub(crate) fn remove(&mut self, title: &Text)
        requires { HasRows T.title 0 self.old }
        ensures objects { self.new.objects.items ≡ without (λ x. text_order (T.title x) title.now) self.old.objects.items }
        ensures rows { (more : ℕ) → HasRows T.title more self.old → HasRows T.title more self.new }
    {
        if let Ok(i) = search(self.titles.as_slice(), title) {
            let _ = self.titles.remove(i);
            let _ = self.objects.remove(i);
        }
    }
}
