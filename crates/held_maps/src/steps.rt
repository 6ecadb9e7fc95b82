use cl_types::Text;
use std::marker::Model;
use watch_streams::StreamObject;

/// An object with the text of its name.
#[derive(Drop)]
pub(crate) struct Named {
    pub(crate) title: Text,
    pub(crate) object: StreamObject,
}

impl Model for Named {
    ghost use Rattle.std.specs.Prelude.{◌≡◌};
    ghost use Rattle.watch_streams.specs.declared.message.StreamObject.{StreamObject as Object};
    ghost use Rattle.watch_streams.specs.Names.{object_text};

    ghost Value = { Object };

    ghost view = { λ n. n.object };

    ghost invariant = { λ n. n.title ≡ object_text n.object };
}

/// What is done to a map: an object is put, or what has the text of a name is removed.
#[derive(Drop)]
pub(crate) enum Step {
    Put(Named),
    Remove(Text),
}
