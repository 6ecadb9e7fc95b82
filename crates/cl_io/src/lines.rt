ghost use Rattle.std.proofs.Common.{rules};
ghost use Rattle.std.proofs.lemmas.Grind.{common_steps};
ghost use Rattle.std.specs.Prelude.{◌≡◌, ℕ, ◌+◌, ◌-◌, ◌^◌, ◌<◌, ◌≤◌, [], ◌∷◌, ◌⊎◌, length, true, false, Ok, Err, IsTrue, IsOk, IsSome, IfOk, OnOk, OnErr, option_map};
ghost use Rattle.std.specs.Option.{option_copied};
ghost use Rattle.std.specs.List.{slice_get};
ghost use Rattle.cl_io.specs.declared.lines.LineFault.TheVariants.{NoMemory as no_memory};
ghost use Rattle.cl_types.specs.Causes.{Rose};
ghost use Rattle.cl_io.specs.Files.{FilesState, Adds, Lasts, Reads, ReadsNothing, begun_entry, read_last};
ghost use Rattle.cl_io.specs.Reader.{IsUnfailing};

use crate::files::Files;
use cl_types::{Copies, List, NoMemory, Text};
use std::alloc::{AllocError, Global};
use std::marker::Model;
use thiserror::Error;

/// How many bytes are asked of a file at once.
const CHUNK: u64 = 8192;

/// An answer of a reader of lines: a line without its line feed, the length of one that is too long, or the end of all files.
#[derive(Clone, Debug, Drop)]
pub enum Line {
    Whole(Text),
    TooLong(u64),
    End,
}

impl Copies for Line {
    ghost exact = { λ x y h. Prim.search (rules, common_steps) };
}

/// Why a reader of lines stopped.
#[derive(Clone, Copy, Debug, PartialEq, Eq, Error)]
pub enum LineFault {
    #[error("a file can't be begun")]
    Begin,
    #[error("a file can't be read")]
    Read,
    #[error("the files have more bytes than the limit")]
    InputTooLong,
    #[error("out of memory")]
    NoMemory,
}

impl From<AllocError> for LineFault {
    ghost from_gives = { λ _ fault. fault ≡ no_memory };

    fn from(_e: AllocError) -> LineFault {
        LineFault::NoMemory
    }
}

// The front of a line: how many bytes came, and the bytes while they are at most the limit.
#[derive(Drop)]
struct Front {
    kept: Vec<u8>,
    length: u64,
    limit: u64,
}

impl Front {
    ghost use Rattle.cl_io.specs.Steps.{IsFront, Gains};
    ghost use Rattle.cl_io.specs.Reader.{Hands, KeepsLimit};

    fn new(alloc: Global, limit: u64) -> Front
        ensures empty { IsFront result [] }
        ensures limit { result.limit ≡ limit }
    {
        Front {
            kept: Vec::new(alloc),
            length: 0,
            limit,
        }
    }

    fn push(&mut self, bytes: &[u8]) -> Result<(), AllocError>
        requires { self.old.length + length bytes.now < 2 ^ 64 }
        ensures { OnOk result (Gains self.old self.new bytes.now) }
    {
        let length = self.length + bytes.len() as u64;
        if length <= self.limit {
            self.kept.extend_from_slice(bytes)?;
        }
        self.length = length;
        Ok(())
    }

    fn into_line(self) -> Line
        ensures hands { (bytes : _) → IsFront self bytes → Hands result (bytes ∷ []) }
        ensures limit { (bytes : _) → IsFront self bytes → KeepsLimit self.limit result }
    {
        if self.length <= self.limit {
            Line::Whole(Text::of(self.kept))
        } else {
            Line::TooLong(self.length)
        }
    }
}

// How far a step of a reader came.
enum Progress {
    On,
    LineEnds,
    NoMore,
}

/// Reads the lines of files, one after another.
#[derive(Drop)]
pub struct Lines {
    alloc: Global,
    names: List<Text>,
    begun: usize,
    amid: bool,
    // what the last read gave, and how much of it was handed out
    chunk: Vec<u8>,
    start: usize,
    total: u64,
    line_limit: u64,
    input_limit: u64,
}

impl Model for Lines {
    ghost use Rattle.std.specs.Prelude.{◌≡◌, ◌+◌, ◌<◌, ◌≤◌, true, length, drop};
    ghost use Rattle.cl_io.specs.Reader.{Reading};

    ghost Value = { Reading };

    ghost view = { λ l. record {
      names = l.names;
      begun = l.begun;
      amid = l.amid;
      pending = drop l.start l.chunk.items;
      total = l.total;
      line_limit = l.line_limit;
      input_limit = l.input_limit;
    } };

    ghost invariant = { λ l. (l.begun ≤ length l.names) × (l.start ≤ length l.chunk.items)
        × (length l.chunk.items ≤ l.total + l.start) × (l.total ≤ l.input_limit)
        × (l.amid ≡ true → 0 < l.begun) };
}

impl Lines {
    ghost use Rattle.cl_io.specs.Steps.{IsFront, Gains, HasNoFeed, Parts, with_pending, next_name, after_begin, after_read, steps_left, ComesTo};
    ghost use Rattle.cl_io.specs.Reader.{Reading, reading_of, Kept, Stands, Hands, KeepsLimit, GoesOn, Leaves, EachLeft, UsesByte, IsFinished, IsUnopened, IsUnreadable, IsOverfull};

    /// A reader of the files of these names, in order. No line that it gives is longer than `line_limit` bytes,
    /// and it takes no more than `input_limit` bytes and one of all the files. It does not allocate.
    pub fn new(alloc: Global, names: List<Text>, line_limit: u64, input_limit: u64) -> Lines
        ensures value { result ≡ reading_of names line_limit input_limit }
        ensures stands { (base : FilesState) → Stands base [] result base }
    {
        Lines {
            alloc,
            names,
            begun: 0,
            amid: false,
            chunk: Vec::new(alloc),
            start: 0,
            total: 0,
            line_limit,
            input_limit,
        }
    }

    /// The name that `begin` was called with last.
    pub fn last_begun(&self) -> Option<&Text>
        ensures none { self.now.begun ≡ 0 → result ≡ None }
        ensures some { 0 < self.now.begun → option_copied result ≡ slice_get self.now.names (self.now.begun - 1) }
    {
        match self.begun {
            0 => None,
            n => self.names.as_slice().get(n - 1),
        }
    }

    /// The next line, or `End` after the last of the last file.
    pub fn next<F: Files>(&mut self, files: &mut F) -> Result<Line, LineFault>
        ensures kept { Kept self.old (F.state files.old) self.new (F.state files.new) }
        ensures begun { self.new.begun ≤ length self.new.names }
        ensures limit { IfOk result (KeepsLimit self.old.line_limit) }
        ensures uses { IfOk result (λ line. UsesByte self.old line self.new) }

        // Where only this reader used the files from some base on.
        ensures goes_on { IfOk result
            (λ line. GoesOn self.old (F.state files.old) line self.new (F.state files.new)) }
        ensures end { result ≡ Ok Line.End
            → Leaves IsFinished self.old (F.state files.old) self.new (F.state files.new) }
        ensures unopened { result ≡ Err LineFault.Begin
            → Leaves IsUnopened self.old (F.state files.old) self.new (F.state files.new) }
        ensures unreadable { result ≡ Err LineFault.Read
            → Leaves IsUnreadable self.old (F.state files.old) self.new (F.state files.new) }
        ensures overfull { result ≡ Err LineFault.InputTooLong
            → Leaves IsOverfull self.old (F.state files.old) self.new (F.state files.new) }

        // Causes of failures.
        ensures begin_cause { result ≡ Err LineFault.Begin
            → (0 < self.new.begun) × Rose (F.state files.old).faults (F.state files.new).faults }
        ensures read_cause { result ≡ Err LineFault.Read
            → (0 < self.new.begun) × Rose (F.state files.old).faults (F.state files.new).faults }
        ensures unfailing { IsTrue (F.state files.old).steady → EachLeft (F.state files.old).there self.old
            → IsUnfailing result }
    {
        let mut front = Front::new(self.alloc, self.line_limit);
        loop {
            match self.proceed(files, &mut front)? {
                Progress::On => {}
                Progress::LineEnds => return Ok(front.into_line()),
                Progress::NoMore => return Ok(Line::End),
            }
        }
    }

    // Goes on by one step: to the end of the line, or into the next bytes or the next file.
    fn proceed<F: Files>(&mut self, files: &mut F, front: &mut Front) -> Result<Progress, LineFault>
        requires { front.old.length + length self.old.pending ≤ self.old.total }
        ensures kept { Kept self.old (F.state files.old) self.new (F.state files.new) }
        ensures limit { OnOk result (front.new.limit ≡ front.old.limit) }
        ensures comes_to { (line : List ℕ) → IsFront front.old line → HasNoFeed line
            → ComesTo self.old (F.state files.old) line result self.new (F.state files.new) front.new }
        ensures nearer { result ≡ Ok Progress.On → steps_left self.new < steps_left self.old }

        ensures begin_cause { result ≡ Err LineFault.Begin
            → (0 < self.new.begun) × Rose (F.state files.old).faults (F.state files.new).faults }
        ensures read_cause { result ≡ Err LineFault.Read
            → (0 < self.new.begun) × Rose (F.state files.old).faults (F.state files.new).faults }
        ensures unfailing { IsTrue (F.state files.old).steady → EachLeft (F.state files.old).there self.old
            → IsUnfailing result }
    {
        if self.advance(front)? {
            return Ok(Progress::LineEnds);
        }
        if self.amid {
            let more = self.fill(files)?;
            Ok(if more || front.length == 0 {
                Progress::On
            } else {
                Progress::LineEnds
            })
        } else {
            let more = self.begin(files)?;
            Ok(if more { Progress::On } else { Progress::NoMore })
        }
    }

    // Moves what is pending, up to the next line feed, to the front of a line, and says whether a line feed came.
    fn advance(&mut self, front: &mut Front) -> Result<bool, LineFault>
        requires { front.old.length + length self.old.pending ≤ self.old.total }
        ensures rest { self.new ≡ with_pending self.old self.new.pending }
        ensures parts { IfOk result (λ fed. (part : _) × HasNoFeed part
            × Parts fed self.old.pending part self.new.pending × Gains front.old front.new part) }
        ensures err { (result ≡ Err LineFault.NoMemory) ⊎ IsOk result }
    {
        let pending = &self.chunk[self.start..];
        match pending.iter().position(|byte| *byte == b'\n') {
            Some(place) => {
                front.push(&pending[..place])?;
                self.start += place + 1;
                Ok(true)
            }
            None => {
                front.push(pending)?;
                self.start = self.chunk.len();
                Ok(false)
            }
        }
    }

    // Reads on in the file that was begun last, and says whether more came.
    fn fill<F: Files>(&mut self, files: &mut F) -> Result<bool, LineFault>
        requires { self.old.amid ≡ true }
        ensures kept { Kept self.old (F.state files.old) self.new (F.state files.new) }
        ensures ok { IfOk result (λ more. (self.new ≡ after_read self.new.pending self.old)
            × (more ≡ self.new.amid)) }
        ensures within { OnOk result (self.new.total ≤ self.new.input_limit) }
        ensures begun { 0 < self.new.begun }
        ensures reads { OnOk result (Reads self.new.pending (F.state files.old) (F.state files.new)) }

        ensures err { OnErr result (self.new ≡ with_pending self.old self.new.pending) }
        ensures read { result ≡ Err LineFault.Read
            → (F.state files.new).taken ≡ (F.state files.old).taken }
        ensures over { result ≡ Err LineFault.InputTooLong
            → (self.old.total ≡ self.old.input_limit) × ((byte : ℕ)
            × ((F.state files.new).taken ≡ option_map (read_last (byte ∷ [])) (F.state files.old).taken)) }
        ensures no_begin { result ≡ Err LineFault.Begin → ⊥ }
        ensures cause { result ≡ Err LineFault.Read
            → Rose (F.state files.old).faults (F.state files.new).faults }
        ensures unfailing { IsTrue (F.state files.old).steady → IsUnfailing result }
    {
        let left = self.input_limit - self.total;
        let most = left.min(CHUNK).max(1);
        self.start = 0;
        let count = read_chunk(files, &mut self.chunk, most)?;
        if count > left {
            self.chunk.clear();
            return Err(LineFault::InputTooLong);
        }
        self.total += count;
        self.amid = count > 0;
        Ok(self.amid)
    }

    // Begins the next file, and says whether there was one.
    fn begin<F: Files>(&mut self, files: &mut F) -> Result<bool, LineFault>
        requires { self.old.amid ≡ false }
        ensures kept { Kept self.old (F.state files.old) self.new (F.state files.new) }
        ensures none { result ≡ Ok false → (self.new ≡ self.old)
            × (length self.old.names ≤ self.old.begun) × (F.state files.new ≡ F.state files.old) }
        ensures some { result ≡ Ok true → (self.old.begun < length self.old.names)
            × (self.new ≡ after_begin true self.old)
            × Adds (F.state files.old).taken (begun_entry (next_name self.old) ∷ []) (F.state files.new).taken
            × Adds (F.state files.old).tried (next_name self.old ∷ []) (F.state files.new).tried }
        ensures err { OnErr result ((result ≡ Err LineFault.Begin)
            × (self.new ≡ after_begin false self.old)
            × Adds (F.state files.old).taken [] (F.state files.new).taken) }
        ensures cause { OnErr result (Rose (F.state files.old).faults (F.state files.new).faults) }
        ensures unfailing { IsTrue (F.state files.old).steady → EachLeft (F.state files.old).there self.old
            → IsOk result }
    {
        let names = self.names.as_slice();
        if self.begun >= names.len() {
            return Ok(false);
        }
        let begun = files.begin(&names[self.begun]);
        self.begun += 1;
        if begun.is_err() {
            return Err(LineFault::Begin);
        }
        self.amid = true;
        Ok(true)
    }
}

// Reads up to so many bytes, which are then the whole chunk. After a failure the chunk is empty.
fn read_chunk<F: Files>(files: &mut F, chunk: &mut Vec<u8>, most: u64) -> Result<u64, LineFault>
    requires { 0 < most }
    ensures count { IfOk result (λ count. (count ≡ length chunk.new.items) × (count ≤ most)) }
    ensures lasts { Lasts (F.state files.old) (F.state files.new) }
    ensures reads { OnOk result (Reads chunk.new.items (F.state files.old) (F.state files.new)) }
    ensures reads_nothing { OnErr result (ReadsNothing (F.state files.old) (F.state files.new)) }
    ensures empty { OnErr result (chunk.new.items ≡ []) }
    ensures err { OnErr result ((result ≡ Err LineFault.Read) ⊎ (result ≡ Err LineFault.NoMemory)) }
    ensures cause { result ≡ Err LineFault.Read
        → Rose (F.state files.old).faults (F.state files.new).faults }
    ensures steady { IsTrue (F.state files.old).steady
        → (F.state files.new).faults ≡ (F.state files.old).faults }
    ensures unfailing { IsTrue (F.state files.old).steady → IsUnfailing result }
{
    chunk.clear();
    chunk.resize(most as usize, 0)?;
    let Ok(count) = files.read(chunk.as_mut_slice()) else {
        chunk.clear();
        return Err(LineFault::Read);
    };
    chunk.truncate(count);
    Ok(count as u64)
}
