ghost use Rattle.std.proofs.Common.{rules};
ghost use Rattle.std.proofs.lemmas.Grind.{common_steps};
ghost use Rattle.std.specs.Prelude.{◌≡◌, ◌≤◌, ◌<◌, ◌+◌, ◌-◌, ◌^◌, ◌&&◌, ◌==◌, true, false, [], ◌∷◌, ◌++◌, Some, None, IsTrue, IfSome, IfOk, MatchOption, is_none, is_some, length, map, option_to_list, vec_len, vec_capacity, nat_lt, if◌then◌else◌};
ghost use Rattle.std.specs.Option.{ForSome, ForNone};
ghost use Rattle.cl_io.specs.Memory.{content_of, bytes_at, name_at, has_file, is_known, is_empty, file_place, name_place, entry_of, tried_name, where_told, parts_of, fresh_part, part_after, first_place, fresh_state, IsReadable};

use crate::files::{Failed, Files};
use crate::script::Script;
use cl_types::{Copies, List, NoMemory, Text};
use std::alloc::Global;

/// A file in memory.
#[derive(Clone, Debug, Drop)]
pub struct NamedBytes {
    pub name: Text,
    pub bytes: Text,
}

impl Copies for NamedBytes {
    ghost exact = { λ x y h. Prim.search (rules, common_steps) };
}

// A name that was tried, by its place in one of the two lists.
#[derive(Clone, Copy)]
pub enum Place {
    Listed(usize),
    Missing(usize),
}

// How far a file was read.
#[derive(Clone, Copy)]
pub struct Part {
    pub file: usize,
    pub count: usize,
    pub ended: bool,
}

// What was tried and taken. The names that are tried are noted while there are places.
#[derive(Drop)]
struct Log {
    told: bool,
    places: u32,
    tried: Vec<Place>,
    earlier: Vec<Part>,
    current: Option<Part>,
    ghost tried_room: { vec_len tried + places ≤ vec_capacity tried },
    ghost none_earlier: { ForNone current (earlier.items ≡ []) },
    ghost earlier_room: { vec_len earlier + places ≤ vec_capacity earlier },
}

impl Log {
    fn new(alloc: Global, begins: u32) -> Result<Log, NoMemory>
        ensures told { IfOk result (λ log. log.told ≡ true) }
        ensures places { IfOk result (λ log. log.places ≡ begins) }
        ensures tried { IfOk result (λ log. log.tried.items ≡ []) }
        ensures earlier { IfOk result (λ log. log.earlier.items ≡ []) }
        ensures current { IfOk result (λ log. log.current ≡ None) }
    {
        Ok(Log {
            told: true,
            places: begins,
            tried: Vec::with_capacity(alloc, begins as usize)?,
            earlier: Vec::with_capacity(alloc, begins as usize)?,
            current: None,
        })
    }

    // Notes that a name was tried, by its place if it has one, and that a file was begun, if it was.
    fn begin(&mut self, place: Option<Place>, file: Option<usize>)
        ensures told { self.new.told ≡ (self.old.told && nat_lt 0 self.old.places && is_some place) }
        ensures places { self.new.places ≡ self.old.places - 1 }
        ensures tried { IsTrue self.new.told
            → self.new.tried.items ≡ self.old.tried.items ++ option_to_list place }
        ensures parts { let before = parts_of self.old.earlier.items self.old.current in
            let after = parts_of self.new.earlier.items self.new.current in
            IsTrue self.new.told → MatchOption file (after ≡ before) (λ f. after ≡ before ++ fresh_part f ∷ []) }
        ensures current { self.new.current ≡ part_after file self.old.current }
    {
        if self.places == 0 {
            self.told = false;
        } else {
            self.places -= 1;
            match place {
                Some(place) => self.told = self.tried.push(place).is_ok() && self.told,
                None => self.told = false,
            }
            if let (Some(_), Some(part)) = (file, self.current) {
                self.told = self.earlier.push(part).is_ok() && self.told;
            }
        }
        if let Some(file) = file {
            self.current = Some(Part {
                file,
                count: 0,
                ended: false,
            });
        }
    }
}

/// Files in memory, which fail where they are told to.
#[derive(Drop)]
pub struct MemFiles {
    files: List<NamedBytes>,
    missing: List<Text>,
    script: Script,
    fail_at: Option<u64>,
    given: u64,
    log: Log,
    ghost readable: { ForSome log.current (IsReadable files) },
}

impl MemFiles {
    ghost use Rattle.cl_io.specs.MemoryStates.{failing_calls, calls_made, bytes_allowed, unread};

    /// Files that can be begun, names that can't, and how often `begin` can be told. The calls of `begin` and `read`
    /// whose numbers, counted from 1, are in `fail_calls` fail. No read crosses the place after `fail_at` bytes in all,
    /// and the next read there fails.
    pub fn new(
        alloc: Global,
        files: List<NamedBytes>,
        missing: List<Text>,
        begins: u32,
        fail_calls: List<u64>,
        fail_at: Option<u64>,
    ) -> Result<MemFiles, NoMemory>
        ensures state { IfOk result (λ made. ⟦<MemFiles as Files>⟧.state made
            ≡ fresh_state files missing begins (is_empty fail_calls && is_none fail_at)) }
        ensures failing { IfOk result (λ made. failing_calls made ≡ fail_calls) }
        ensures calls { IfOk result (λ made. calls_made made ≡ 0) }
        ensures allowed { IfOk result (λ made. bytes_allowed made ≡ fail_at) }
        ensures next { IfOk result (λ made. unread made ≡ []) }
    {
        Ok(MemFiles {
            files,
            missing,
            script: Script::new(fail_calls),
            fail_at,
            given: 0,
            log: Log::new(alloc, begins)?,
        })
    }

    /// How often they failed.
    pub fn faults(&self) -> u64
        ensures { result ≡ (⟦<MemFiles as Files>⟧.state self.now).faults }
    {
        self.script.faults
    }

    // How many bytes the next read may give at most, which is 0 only where it fails.
    fn allowed(&self) -> u64
        ensures limited { IfSome self.now.fail_at
            (λ place. (place < 2 ^ 64) × (result ≡ place - self.now.given)) }
        ensures unlimited { self.now.fail_at ≡ None → result ≡ u64.MAX }
    {
        match self.fail_at {
            Some(place) => place.saturating_sub(self.given),
            None => u64::MAX,
        }
    }
}

impl Files for MemFiles {
    ghost use Rattle.std.specs.Prelude.{◌≡◌, ◌≤◌, ◌<◌, ◌-◌, ◌&&◌, ℕ, false, [], ◌∷◌, ◌++◌, Some, IsTrue, IfOk, is_some, nat_lt, length, take, OnOk, OnErr};
    ghost use Rattle.cl_types.specs.Causes.{Rose};
    ghost use Rattle.cl_io.specs.Files.{Adds, begun_entry, Lasts, Tries, Reads, ReadsNothing, Succeeds};
    ghost use Rattle.cl_io.specs.Sink.{Lowers};
    ghost use Rattle.cl_io.specs.MemoryStates.{files_state, failing_calls, calls_made, bytes_allowed, unread, Counted, Fails};
    ghost use Rattle.cl_io.specs.MemoryLaws.{truthful_files};

    ghost state = { files_state };

    ghost truthful = { truthful_files };

    fn begin(&mut self, name: &Text) -> Result<(), Failed>
        ensures lasts { Lasts (files_state self.old) (files_state self.new) }
        ensures tries { Tries name.now (files_state self.old) (files_state self.new) }
        ensures begun { OnOk result
            (Adds (files_state self.old).taken (begun_entry name.now ∷ []) (files_state self.new).taken) }
        ensures not_begun { OnErr result (Adds (files_state self.old).taken [] (files_state self.new).taken) }
        ensures cause { OnErr result (Rose (files_state self.old).faults (files_state self.new).faults) }
        ensures succeeds { IsTrue (files_state self.old).steady
            → IsTrue ((files_state self.old).there name.now)
            → Succeeds result (files_state self.old).faults (files_state self.new).faults }

        // When it fails, what is read next, and whether it is told.
        ensures counted { Counted (failing_calls self.old) (failing_calls self.new)
            (calls_made self.old) (calls_made self.new) }
        ensures fails { Fails result (failing_calls self.old) (calls_made self.new)
            ((files_state self.old).there name.now ≡ false) }
        ensures allowed { bytes_allowed self.new ≡ bytes_allowed self.old }
        ensures next { OnOk result (unread self.new ≡ (files_state self.old).content name.now) }
        ensures no_next { OnErr result (unread self.new ≡ unread self.old) }
        ensures places { (files_state self.new).places ≡ (files_state self.old).places - 1 }
        ensures told { is_some (files_state self.new).tried ≡ (is_some (files_state self.old).tried
            && nat_lt 0 (files_state self.old).places && (files_state self.old).knows name.now) }
        ensures told_taken { is_some (files_state self.new).taken ≡ is_some (files_state self.new).tried }
    {
        let fails = self.script.fails();
        let file = file_at(self.files.as_slice(), name);
        let missing = name_at(self.missing.as_slice(), name);
        let begun = unless(fails, file);
        self.log.begin(place_of(file, missing), begun);
        if begun.is_none() {
            return Err(self.script.fail());
        }
        Ok(())
    }

    fn read(&mut self, buf: &mut [u8]) -> Result<usize, Failed>
        requires { 0 < length buf.old }
        ensures lasts { Lasts (files_state self.old) (files_state self.new) }
        ensures count { IfOk result (λ n. n ≤ length buf.old) }
        ensures reads { IfOk result (λ n. Reads (take n buf.new) (files_state self.old) (files_state self.new)) }
        ensures reads_nothing { OnErr result (ReadsNothing (files_state self.old) (files_state self.new)) }
        ensures cause { OnErr result (Rose (files_state self.old).faults (files_state self.new).faults) }
        ensures succeeds { IsTrue (files_state self.old).steady
            → Succeeds result (files_state self.old).faults (files_state self.new).faults }

        // When it fails, and what it gives.
        ensures counted { Counted (failing_calls self.old) (failing_calls self.new)
            (calls_made self.old) (calls_made self.new) }
        ensures fails { Fails result (failing_calls self.old) (calls_made self.new)
            (bytes_allowed self.old ≡ Some 0) }
        ensures allowed { IfOk result (λ n. Lowers (bytes_allowed self.old) n (bytes_allowed self.new)) }
        ensures still_allowed { OnErr result (bytes_allowed self.new ≡ bytes_allowed self.old) }
        ensures gives { IfOk result (λ n. unread self.old ≡ take n buf.new ++ unread self.new) }
        ensures gives_nothing { OnErr result (unread self.new ≡ unread self.old) }
    {
        if self.script.fails() {
            return Err(self.script.fail());
        }
        let allowed = self.allowed();
        if allowed == 0 {
            return Err(self.script.fail());
        }
        let Some(part) = self.log.current else {
            return Ok(0);
        };
        let rest = &bytes_of(self.files.as_slice(), part.file)[part.count..];
        let count = rest.len().min(buf.len()).min(allowed as usize);
        buf[..count].copy_from_slice(&rest[..count]);
        self.given = self.given.saturating_add(count as u64);
        self.log.current = Some(Part {
            file: part.file,
            count: part.count + count,
            ended: count == 0,
        });
        Ok(count)
    }
}

fn file_at(files: &[NamedBytes], name: &Text) -> Option<usize>
    ensures { result ≡ file_place files.now name.now }
{
    files
        .iter()
        .position(|file| file.name.as_slice() == name.as_slice())
}

fn name_at(names: &[Text], name: &Text) -> Option<usize>
    ensures { result ≡ name_place names.now name.now }
{
    names
        .iter()
        .position(|other| other.as_slice() == name.as_slice())
}

fn bytes_of(files: &[NamedBytes], place: usize) -> &[u8]
    requires { place < length files.now }
    ensures { result.now ≡ bytes_at files.now place }
{
    files[place].bytes.as_slice()
}

fn place_of(file: Option<usize>, missing: Option<usize>) -> Option<Place>
    ensures { result ≡ first_place file missing }
{
    match (file, missing) {
        (Some(place), _) => Some(Place::Listed(place)),
        (None, Some(place)) => Some(Place::Missing(place)),
        (None, None) => None,
    }
}

fn unless(fails: bool, file: Option<usize>) -> Option<usize>
    ensures { result ≡ (if fails then None else file) }
{
    if fails { None } else { file }
}
