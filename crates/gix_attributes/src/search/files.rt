//! Lists that are read from files: one at a time, and the global ones.

ghost use Rattle.std.specs.Prelude.{◌≡◌, ◌≤◌, List, IfOk, IfErr, OnOk, OnErr, MatchResult, map, string_bytes};
ghost use Rattle.std.specs.Option.{option_copied};
ghost use Rattle.gix_attributes.specs.Additions.{AddsFile, IsIo, RefusedBy, registered_lists};
ghost use Rattle.gix_attributes.specs.Answers.{ReadAnswer};
ghost use Rattle.gix_attributes.specs.Failures.{Fails};
ghost use Rattle.gix_attributes.specs.FileReads.{AreAnswered, FileRead, ReadInOrder, names_read};
ghost use Rattle.gix_attributes.specs.Globals.{AddsBuiltIn, AreGlobalsOf, RefusesGlobals, globals_in};
ghost use Rattle.gix_attributes.specs.Keeping.{Adds, AddsBeforeRefusal, Keeps};
ghost use Rattle.gix_attributes.specs.Registers.{no_lists};
ghost use Rattle.gix_attributes.specs.SearchViews.{Holds, lists_in, list_ids_in};
ghost use Rattle.gix_attributes.specs.declared.search.files.AddError.TheVariants.{OutOfMemory};

use crate::files::{Disk, Files, ReadError};
use crate::search::{MetadataCollection, Search};
use attr_lists::types::Dropped;
use std::alloc::{AllocError, Global};
use std::io;
use std::rt::Files as HostFiles;
use thiserror::Error;

/// What [`Search::add_patterns_file`] did.
#[derive(Debug, Drop)]
pub struct Added {
    /// Whether the file exists, so that its list was added.
    pub was_added: bool,
    /// The dropped lines of the file, which its list lacks.
    pub dropped: Vec<Dropped>,
}

/// Why a file could not be added.
#[derive(Debug, Drop, Error)]
pub enum AddError {
    /// The device failed, with its error. A file that doesn't exist is no failure.
    #[error("reading failed")]
    Io(io::Error),
    /// The buffer, the list or the collection could not grow.
    #[error("out of memory")]
    OutOfMemory,
}

impl From<AllocError> for AddError {
    ghost from_gives = { λ _ e. e ≡ OutOfMemory };

    fn from(_error: AllocError) -> AddError {
        AddError::OutOfMemory
    }
}

impl From<ReadError> for AddError {
    ghost use Rattle.gix_attributes.specs.Additions.{HasCauseOf};

    ghost from_gives = { HasCauseOf };

    fn from(error: ReadError) -> AddError {
        match error {
            ReadError::Device(error) => AddError::Io(error),
            ReadError::OutOfMemory => AddError::OutOfMemory,
        }
    }
}

impl Search {
    /// Adds the list of a file, as [`Search::add_patterns_buffer`] adds that of a buffer. If the file doesn't exist,
    /// nothing is added. `source` is the path of the file, and `buf` has its contents after that.
    ///
    /// # Errors
    ///
    /// [`AddError::Io`] if the device fails, and [`AddError::OutOfMemory`] if memory runs out. The search and the
    /// collection are unchanged then, and the contents of `buf` are not specified.
    pub fn add_patterns_file_from<F: Files>(
        &mut self,
        alloc: Global,
        files: &mut F,
        source: String,
        root: Option<&str>,
        buf: &mut Vec<u8>,
        collection: &mut MetadataCollection,
        allow_macros: bool,
    ) -> Result<Added, AddError>
        ensures read { (answer : ReadAnswer)
            × F.reads files.old (string_bytes source) answer files.new
            × MatchResult result
            (AddsFile (string_bytes source) (option_copied root.entry) allow_macros answer
            (registered_lists self.old collection.old)
            (registered_lists self.new collection.new) buf.new.items)
            (RefusedBy answer) }
        ensures device { IfErr result (λ e.
            IsIo e → Fails (F.failed files.old) (F.failed files.new)) }
        ensures count { F.failed files.old ≤ F.failed files.new }
        ensures held { Holds collection.old self.old → Holds collection.new self.new }
        ensures kept { OnOk result (Keeps (registered_lists self.old collection.old)
            (registered_lists self.new collection.new)) }
        ensures added { OnOk result (Adds (registered_lists self.old collection.old)
            (registered_lists self.new collection.new)) }
        ensures refused { OnErr result (lists_in self.new ≡ lists_in self.old) }
        ensures refused_list_ids { OnErr result (list_ids_in self.new ≡ list_ids_in self.old) }
        ensures unchanged { OnErr result (collection.new ≡ collection.old) }
    {
        if !files.read_into(&source, buf)? {
            return Ok(Added {
                was_added: false,
                dropped: Vec::new(alloc),
            });
        }
        let dropped = self.add_patterns_buffer(alloc, buf, source, root, collection, allow_macros)?;
        Ok(Added {
            was_added: true,
            dropped,
        })
    }

    /// Adds the list of a file of the real disk, as [`Search::add_patterns_file_from`] does.
    ///
    /// # Errors
    ///
    /// As those of [`Search::add_patterns_file_from`].
    pub fn add_patterns_file<R: HostFiles>(
        &mut self,
        rt: &R,
        alloc: Global,
        source: String,
        root: Option<&str>,
        buf: &mut Vec<u8>,
        collection: &mut MetadataCollection,
        allow_macros: bool,
    ) -> Result<Added, AddError>
        ensures read { (answer : ReadAnswer) × MatchResult result
            (AddsFile (string_bytes source) (option_copied root.entry) allow_macros answer
            (registered_lists self.old collection.old)
            (registered_lists self.new collection.new) buf.new.items)
            (RefusedBy answer) }
        ensures held { Holds collection.old self.old → Holds collection.new self.new }
        ensures kept { OnOk result (Keeps (registered_lists self.old collection.old)
            (registered_lists self.new collection.new)) }
        ensures added { OnOk result (Adds (registered_lists self.old collection.old)
            (registered_lists self.new collection.new)) }
        ensures refused { OnErr result (lists_in self.new ≡ lists_in self.old) }
        ensures refused_list_ids { OnErr result (list_ids_in self.new ≡ list_ids_in self.old) }
        ensures unchanged { OnErr result (collection.new ≡ collection.old) }
    {
        let mut disk = Disk::new(rt);
        self.add_patterns_file_from(
            alloc,
            &mut disk,
            source,
            root,
            buf,
            collection,
            allow_macros,
        )
    }

    /// Makes a search of the global lists: the built-in one, which defines the macro `binary` (gitattributes page), and
    /// then the list of each of these files that exists. Later lists take precedence, so `names` are the paths of
    /// [`Source`](crate::Source)s in ascending order. Returns also the dropped lines of each name's file.
    ///
    /// # Errors
    ///
    /// [`AddError::Io`] if the device fails a read, and [`AddError::OutOfMemory`] if memory runs out. The lists that
    /// were added before stay registered in the collection then, and the contents of `buf` are not specified.
    pub fn new_globals_from<F: Files>(
        alloc: Global,
        files: &mut F,
        names: &[String],
        buf: &mut Vec<u8>,
        collection: &mut MetadataCollection,
    ) -> Result<(Search, Vec<Vec<Dropped>>), AddError>
        ensures globals { IfOk result (λ globals. (read : List FileRead)
            × ReadInOrder F.reads files.old read files.new
            × (names_read read ≡ map string_bytes names.now) × AreAnswered read
            × AreGlobalsOf collection.old buf.old.items read
            (globals_in globals.0 collection.new globals.1.items buf.new.items)) }
        ensures held { IfOk result (λ globals. Holds collection.new globals.0) }
        ensures kept { IfOk result (λ globals. Keeps (no_lists collection.old)
            (registered_lists globals.0 collection.new)) }
        ensures added { IfOk result (λ globals. Adds (no_lists collection.old)
            (registered_lists globals.0 collection.new)) }
        ensures added_before { OnErr result (AddsBeforeRefusal collection.old collection.new) }
        ensures refused { IfErr result (λ e. (read : List FileRead)
            × ReadInOrder F.reads files.old read files.new
            × RefusesGlobals (map string_bytes names.now) read collection.old collection.new e) }
        ensures device { IfErr result (λ e.
            IsIo e → Fails (F.failed files.old) (F.failed files.new)) }
        ensures count { F.failed files.old ≤ F.failed files.new }
    {
        let mut search = Search::new_built_in(alloc, collection)?;
        let mut dropped = Vec::new(alloc);
        for name in names {
            dropped.reserve(1)?;
            let source = name.clone()?;
            let added = search.add_patterns_file_from(
                alloc, files, source, None, buf, collection, true,
            )?;
            dropped.push_reserved(added.dropped);
        }
        Ok((search, dropped))
    }

    /// Makes a search of the global lists from files of the real disk, as [`Search::new_globals_from`] does.
    ///
    /// # Errors
    ///
    /// As those of [`Search::new_globals_from`].
    pub fn new_globals<R: HostFiles>(
        rt: &R,
        alloc: Global,
        names: &[String],
        buf: &mut Vec<u8>,
        collection: &mut MetadataCollection,
    ) -> Result<(Search, Vec<Vec<Dropped>>), AddError>
        ensures globals { IfOk result (λ globals. (read : List FileRead)
            × (names_read read ≡ map string_bytes names.now) × AreAnswered read
            × AreGlobalsOf collection.old buf.old.items read
            (globals_in globals.0 collection.new globals.1.items buf.new.items)) }
        ensures held { IfOk result (λ globals. Holds collection.new globals.0) }
        ensures kept { IfOk result (λ globals. Keeps (no_lists collection.old)
            (registered_lists globals.0 collection.new)) }
        ensures added { IfOk result (λ globals. Adds (no_lists collection.old)
            (registered_lists globals.0 collection.new)) }
        ensures added_before { OnErr result (AddsBeforeRefusal collection.old collection.new) }
        ensures refused { IfErr result (λ e. (read : List FileRead)
            × RefusesGlobals (map string_bytes names.now) read collection.old collection.new e) }
    {
        let mut disk = Disk::new(rt);
        Search::new_globals_from(alloc, &mut disk, names, buf, collection)
    }

    /// A search of the built-in list alone, which defines the macro `binary` (gitattributes page).
    ///
    /// # Errors
    ///
    /// If memory runs out. The collection is unchanged then.
    pub fn new_built_in(
        alloc: Global,
        collection: &mut MetadataCollection,
    ) -> Result<Search, AllocError>
        ensures loaded { IfOk result (λ search.
            AddsBuiltIn collection.old (registered_lists search collection.new)) }
        ensures held { IfOk result (λ search. Holds collection.new search) }
        ensures kept { IfOk result (λ search. Keeps (no_lists collection.old)
            (registered_lists search collection.new)) }
        ensures added { IfOk result (λ search. Adds (no_lists collection.old)
            (registered_lists search collection.new)) }
        ensures refused { OnErr result (collection.new ≡ collection.old) }
    {
        let mut search = Search::new(alloc);
        let source = String::from_str(alloc, "[builtin]")?;
        let bytes = b"[attr]binary -diff -merge -text";
        search.add_patterns_buffer(alloc, bytes, source, None, collection, true)?;
        Ok(search)
    }
}
