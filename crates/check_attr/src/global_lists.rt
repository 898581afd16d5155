//! The lists that a script starts from: the built-in one, and those of global files.

ghost use Rattle.std.specs.Prelude.{◌≡◌, ◌≤◌, List, IfErr, IfOk, map, string_bytes};
ghost use Rattle.gix_attributes.specs.Additions.{IsIo};
ghost use Rattle.gix_attributes.specs.Failures.{Fails};
ghost use Rattle.gix_attributes.specs.FileReads.{FileRead, ReadInOrder};
ghost use Rattle.check_attr.specs.ScriptStates.{initial_state};
ghost use Rattle.check_attr.specs.GlobalFiles.{ReadsNames, RefusedAt, loaded_from};

use gix_attributes::Search;
use gix_attributes::engine::Engine;
use gix_attributes::files::Files;
use gix_attributes::search::{AddError, Dropped, MetadataCollection};
use std::alloc::Global;
use std::marker::Model;

/// Global lists, with the collection that numbers their names.
#[derive(Drop)]
pub struct Globals {
    search: Search,
    collection: MetadataCollection,
    dropped: Vec<Vec<Dropped>>,
}

impl Model for Globals {
    ghost use Rattle.check_attr.specs.ScriptStates.{GlobalLists};

    ghost Value = { GlobalLists };

    ghost use Rattle.check_attr.specs.GlobalsView.{global_lists_view};
    ghost use Rattle.check_attr.specs.inner.GlobalsView.{IsSoundGlobals};

    ghost view = { global_lists_view };

    ghost invariant = { IsSoundGlobals };
}

impl Globals {
    /// The dropped lines of the global files, a list for each file name.
    pub fn dropped(&self) -> &[Vec<Dropped>]
        ensures { map (λ lines. lines.items) result.now ≡ self.now.dropped }
    {
        &self.dropped
    }

    // The engine with the lists, before a script.
    pub(crate) fn into_engine(self, alloc: Global) -> Engine
        ensures { result.state ≡ initial_state self }
    {
        Engine::of(alloc, self.search, self.collection)
    }
}

/// Reads the global lists: the built-in one, and then that of each of these files that exists. Later lists take
/// precedence (gitattributes page).
///
/// # Errors
///
/// `Io` if the device failed, and `OutOfMemory` if a buffer, the lists or the collection could not
/// grow.
pub fn read_globals<F: Files>(
    alloc: Global,
    files: &mut F,
    names: &[String],
) -> Result<Globals, AddError>
    ensures loaded { IfOk result (λ globals. (read : List FileRead)
        × ReadsNames F.reads (map string_bytes names.now) files.old read files.new
        × (globals ≡ loaded_from read)) }
    ensures refused { IfErr result (λ e. (read : List FileRead)
        × ReadInOrder F.reads files.old read files.new
        × RefusedAt (map string_bytes names.now) read e) }
    ensures device { IfErr result (λ e. IsIo e → Fails (F.failed files.old) (F.failed files.new)) }
    ensures count { F.failed files.old ≤ F.failed files.new }
{
    let mut collection = MetadataCollection::new(alloc);
    let mut buf = Vec::new(alloc);
    let (search, dropped) = Search::new_globals_from(
        alloc,
        files,
        names,
        &mut buf,
        &mut collection,
    )?;
    Ok(Globals {
        search,
        collection,
        dropped,
    })
}
