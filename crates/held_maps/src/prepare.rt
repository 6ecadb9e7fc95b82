ghost use Rattle.std.specs.Prelude.{◌≡◌, ◌+◌, ◌≤◌, IfOk, OnOk, OnErr, length};
ghost use Rattle.watch_streams.specs.declared.message.Msg.TheVariants.{Delta, Snapshot};
ghost use Rattle.held_maps.specs.Held.{IsTaken};
ghost use Rattle.held_maps.specs.Ready.{start, IsRoomFor, IsReady, AreMaps};

use crate::held::Held;
use crate::message_steps::{changes_form, objects_form, put_steps, steps_of};
use crate::places::Places;
use crate::ready::{Ready, Room};
use crate::shelf::{Shelf, Titled};
use cl_types::{NoMemory, Rev, Stream};
use label_select::group_texts_differ;
use std::alloc::Global;
use watch_streams::{Changes, Msg, Objects};

// Places for what is there and so many more; a whole map starts from nothing.
fn places_for<T: Titled + Drop>(
    alloc: Global,
    shelf: &Shelf<T>,
    whole: bool,
    more: usize,
) -> Result<Places<T>, NoMemory>
    ensures { IfOk result (λ places. length (start whole shelf.now) + more ≤ places) }
{
    let kept = if whole {
        0
    } else {
        shelf.objects().as_slice().len()
    };
    let places = kept.checked_add(more).ok_or(NoMemory)?;
    Places::reserve(alloc, places)
}

impl Held {
    // What the type keeps of everything that is held. It does nothing.
    fn maps_form(&self)
        ensures { AreMaps self.now }
    {
        let _policies = self.policies.objects();
        let _egresses = self.egresses.objects();
    }

    fn room_for(&self, s: Stream, whole: bool, more: usize) -> Result<Room, NoMemory>
        ensures { IfOk result (IsRoomFor s self.now whole more) }
    {
        if !whole && more == 0 {
            return Ok(Room::Same(s));
        }
        let alloc = self.policies.alloc();
        match s {
            Stream::Policies => {
                let policies = places_for(alloc, &self.policies, whole, more)?;
                let egresses = places_for(alloc, &self.egresses, whole, more)?;
                Ok(Room::Policies(policies, egresses))
            }
            Stream::Addresses => Ok(Room::Addresses(places_for(
                alloc,
                &self.addresses,
                whole,
                more,
            )?)),
            Stream::Applied => Ok(Room::Applied(places_for(alloc, &self.applied, whole, more)?)),
        }
    }

    fn prepare_delta(&self, s: Stream, rev: Rev, changes: Changes) -> Result<Ready, NoMemory>
        ensures { IfOk result (IsReady s (Delta rev changes) self.now) }
    {
        self.maps_form();
        group_texts_differ();
        changes_form(changes.as_slice());
        let changes = changes.into_list();
        let steps = steps_of(self.policies.alloc(), s, self, changes)?;
        let room = self.room_for(s, false, steps.len())?;
        Ok(Ready {
            rev,
            whole: false,
            steps,
            room,
        })
    }

    fn prepare_snapshot(&self, s: Stream, rev: Rev, objects: Objects) -> Result<Ready, NoMemory>
        ensures { IfOk result (IsReady s (Snapshot rev objects) self.now) }
    {
        objects_form(objects.as_slice());
        let steps = put_steps(self.policies.alloc(), s, objects.into_list())?;
        let room = self.room_for(s, true, steps.len())?;
        Ok(Ready {
            rev,
            whole: true,
            steps,
            room,
        })
    }

    /// Makes the message ready, and reserves all that taking it needs; what is held stays as it is.
    pub fn prepare(&mut self, s: Stream, m: Msg) -> Result<Ready, NoMemory>
        ensures ready { IfOk result (IsReady s m self.new) }
        ensures same { self.new ≡ self.old }
    {
        match m {
            Msg::Delta(rev, changes) => self.prepare_delta(s, rev, changes),
            Msg::Snapshot(rev, objects) => self.prepare_snapshot(s, rev, objects),
        }
    }

    /// Takes a message. A call that runs out of memory leaves what is held as it is.
    pub fn take(&mut self, s: Stream, m: Msg) -> Result<(), NoMemory>
        ensures ok { OnOk result (IsTaken s m self.old self.new) }
        ensures err { OnErr result (self.new ≡ self.old) }
    {
        let ready = self.prepare(s, m)?;
        self.finish(ready);
        Ok(())
    }
}
