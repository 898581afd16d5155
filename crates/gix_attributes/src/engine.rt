//! An engine for the attributes of paths that a caller holds: attributes files are added and removed, names are selected,
//! and paths are asked for, one after the other.
//!
//! ```text
//! let mut engine = Engine::new(alloc)?;
//! let (source, buffer) = (".gitattributes", b"*.sh text eol=lf");
//! engine.add(alloc, Addition { allow_macros: true, source, root: Some(""), buffer })?;
//! engine.select(alloc, &["text", "eol"])?;
//! let path = BStr::from("script.sh");
//! engine.ask(alloc, Question { path, case: Case::Sensitive, is_dir: Some(false) })?;
//! for found in engine.answers() {
//!     println!(rt; "{}", found.assignment)?; // text, then eol=lf
//! }
//! ```

ghost use Rattle.std.specs.Prelude.{◌≡◌, ◌↔◌, ◌<◌, [], IfOk, IsTrue, None, OnErr, OnOk, Some, false, length, true, map, option_and_then, option_map, slice_get, slice_index_or, string_bytes, unwrap_or};
ghost use Rattle.gix_attributes.specs.EngineStates.{AnswersTo, FindsFor, number_answered, unasked, with_addition, with_list_below, with_selection, without_answers, without_last};
ghost use Rattle.gix_attributes.specs.EngineView.{addition_view, below_view, state_by, started};
ghost use Rattle.gix_attributes.specs.Registration.{RegistersAlone};
ghost use Rattle.gix_attributes.specs.inner.SoundEngines.{IsCurrentFor, last_lines};
ghost use Rattle.gix_attributes.specs.Contents.{IsCurrent, names_selected};
ghost use Rattle.gix_attributes.specs.inner.Needed.{IsNarrowed};
ghost use Rattle.attr_lists.specs.shared.MacroNumbers.{defines_macros};
ghost use Rattle.attr_search.specs.Matches.{match_view};
ghost use Rattle.attr_glob.specs.Views.{base_bytes};
ghost use Rattle.gix_attributes.specs.SearchViews.{Holds, list_ids_in, lists_in};

mod answers;
pub mod laws;
mod specified;

use crate::Search;
pub use crate::engine::answers::Answers;
use crate::engine::specified::number_answers;
use crate::search::{AttributeId, Dropped, Match, MetadataCollection, NewList, Outcome, selection};
use attr_glob::pattern::Case;
use attr_glob::search::pattern::base_of;
use bstr::BStr;
use std::alloc::{AllocError, Global};
use std::marker::Model;

/// An attributes file to add.
#[derive(Clone, Copy)]
pub struct Addition<'a> {
    /// Whether the file may define macros.
    pub allow_macros: bool,
    /// The path of the file.
    pub source: &'a str,
    /// The directory from which the file's directory is seen. Without one the patterns apply to all paths.
    pub root: Option<&'a str>,
    /// The bytes of the file.
    pub buffer: &'a [u8],
}

/// The list of an attributes file to add below a base.
#[derive(Clone, Copy)]
pub struct Below<'a> {
    /// Whether the file may define macros.
    pub allow_macros: bool,
    /// What is told as the source of the list's answers.
    pub source: &'a str,
    /// What the paths begin with to which the patterns apply: a directory with a slash at its end, of any bytes. Without a base the
    /// patterns apply to all paths.
    pub base: Option<&'a [u8]>,
    /// The bytes of the file.
    pub buffer: &'a [u8],
}

/// A path to look up.
#[derive(Clone, Copy)]
pub struct Question<'a> {
    /// The path, without a leading slash.
    pub path: BStr<'a>,
    /// How letters compare.
    pub case: Case,
    /// Whether the path is a directory, if that is known.
    pub is_dir: Option<bool>,
}

/// Lists of attributes files with the names that are looked up in them, and the answers to the last question.
///
/// Whatever changes the lists or the selected names leaves no answers.
pub struct Engine {
    search: Search,
    collection: MetadataCollection,
    // It has the selected names too.
    outcome: Outcome,
    // Whether the outcome was initialised since names, macros or the selection changed last.
    is_current: bool,
    // Whether the outcome has the answers to a question.
    has_answers: bool,
    // The numbers of the answers, if nothing is selected.
    numbers: Vec<usize>,
    dropped: Vec<Dropped>,
}

// By hand, so that a proof drops it by one call.
impl Drop for Engine {
    fn drop(self) {
        let Engine {
            search: _,
            collection: _,
            outcome: _,
            is_current: _,
            has_answers: _,
            numbers: _,
            dropped: _,
        } = self;
    }
}

impl Model for Engine {
    ghost use Rattle.gix_attributes.specs.EngineStates.{EngineContent};

    ghost Value = { EngineContent };

    ghost use Rattle.gix_attributes.specs.EngineView.{engine_view};
    ghost use Rattle.gix_attributes.specs.inner.SoundEngines.{IsSoundEngine};

    ghost view = { engine_view };

    ghost invariant = { IsSoundEngine };
}

impl Engine {
    /// An engine with the built-in list, which defines the macro `binary`, and without a selection.
    ///
    /// # Errors
    ///
    /// If there is no memory.
    pub fn new(alloc: Global) -> Result<Engine, AllocError>
        ensures { IfOk result (λ engine. engine ≡ unasked started) }
    {
        let mut collection = MetadataCollection::new(alloc);
        let search = Search::new_built_in(alloc, &mut collection)?;
        Ok(Engine::of(alloc, search, collection))
    }

    /// An engine with the lists of a search, without a selection. The collection registers these lists, and no others. It takes no memory.
    pub fn of(alloc: Global, search: Search, collection: MetadataCollection) -> Engine
        requires held { Holds collection search }
        requires known { RegistersAlone collection (list_ids_in search) (lists_in search) }
        ensures { result ≡ unasked (state_by collection.names search) }
    {
        Engine {
            search,
            collection,
            outcome: Outcome::new(alloc),
            is_current: false,
            has_answers: false,
            numbers: Vec::new(alloc),
            dropped: Vec::new(alloc),
        }
    }

    /// Adds the list of an attributes file as the last one, which takes precedence. [`Engine::dropped`] returns the lines that are
    /// dropped of it.
    ///
    /// # Errors
    ///
    /// If there is no memory. Nothing changes then.
    pub fn add(&mut self, alloc: Global, addition: Addition<'_>) -> Result<(), AllocError>
        ensures added { OnOk result
            (self.new ≡ with_addition (addition_view addition.entry) self.old) }
        ensures refused { OnErr result (self.new ≡ self.old) }
    {
        let source = String::from_str(alloc, addition.source)?;
        let base = base_of(alloc, addition.source, addition.root)?;
        self.add_list(
            alloc,
            NewList {
                allow_macros: addition.allow_macros,
                source,
                base,
                buffer: addition.buffer,
            },
        )
    }

    /// Adds the list of an attributes file as the last one, as [`Engine::add`] does, below a base of any bytes. The source says
    /// nothing of where the list applies.
    ///
    /// # Errors
    ///
    /// If there is no memory. Nothing changes then.
    pub fn add_below(&mut self, alloc: Global, list: Below<'_>) -> Result<(), AllocError>
        ensures added { OnOk result (self.new ≡ with_list_below (below_view list.entry) self.old) }
        ensures refused { OnErr result (self.new ≡ self.old) }
    {
        let source = String::from_str(alloc, list.source)?;
        let base = match list.base {
            Some(base) => Some(Vec::from_slice(alloc, base)?),
            None => None,
        };
        self.add_list(
            alloc,
            NewList {
                allow_macros: list.allow_macros,
                source,
                base,
                buffer: list.buffer,
            },
        )
    }

    fn add_list(&mut self, alloc: Global, list: NewList<'_>) -> Result<(), AllocError>
        ensures added { OnOk result (self.new ≡ with_list_below (record {
          allow_macros = list.entry.allow_macros;
          source = string_bytes list.entry.source;
          base = base_bytes list.entry.base;
          buffer = list.entry.buffer.now;
        }) self.old) }
        ensures refused { OnErr result (self.new ≡ self.old) }
    {
        let names = self.collection.len();
        self.dropped = self
            .search
            .add_patterns_below(alloc, list, &mut self.collection)?;
        self.is_current = stays_current(self.is_current, &self.search, &self.collection, names);
        self.has_answers = false;
        Ok(())
    }

    /// Removes the last list, and returns whether there was one. Names keep their numbers. It takes no memory.
    pub fn pop(&mut self) -> bool
        ensures found { IsTrue result ↔ 0 < length self.old.state.lists }
        ensures popped { IsTrue result → self.new ≡ without_last self.old }
        ensures none { result ≡ false → self.new ≡ self.old }
    {
        let names = self.collection.len();
        let is_current = stays_current(self.is_current, &self.search, &self.collection, names);
        if self.search.pop_pattern_list(&mut self.collection).is_none() {
            return false;
        }
        self.is_current = is_current;
        self.has_answers = false;
        true
    }

    /// Selects the names that are looked up, in the order of the answers, in place of those before. No names select all of them.
    ///
    /// A text that is no valid name is always unspecified.
    ///
    /// # Errors
    ///
    /// If there is no memory. Nothing changes then.
    pub fn select(&mut self, alloc: Global, names: &[&str]) -> Result<(), AllocError>
        ensures selected { OnOk result
            (self.new ≡ with_selection (map (λ name. name.now) names.now) self.old) }
        ensures refused { OnErr result (self.new ≡ self.old) }
    {
        let selected = selection::look_up(alloc, &self.collection, names)?;
        refresh(alloc, &mut self.outcome, self.is_current, &self.collection)?;
        self.outcome.narrow(alloc, &self.collection, selected)?;
        self.is_current = true;
        self.has_answers = false;
        Ok(())
    }

    /// Looks a path up, and returns the number of answers: one for each selected name, and without a selection one for each name
    /// that is specified.
    ///
    /// # Errors
    ///
    /// If there is no memory. No answers are left then, and nothing else changes.
    pub fn ask(&mut self, alloc: Global, question: Question<'_>) -> Result<usize, AllocError>
        ensures answers { OnOk result (AnswersTo question.entry.path.bytes.now
            question.entry.case question.entry.is_dir self.old self.new) }
        ensures found { OnOk result (FindsFor question.entry.path.bytes.now
            question.entry.case question.entry.is_dir self.old self.new) }
        ensures count { IfOk result
            (λ count. option_map length self.new.answers ≡ Some count) }
        ensures refused { OnErr result (self.new ≡ without_answers self.old) }
    {
        self.has_answers = false;
        prepare(alloc, &mut self.outcome, self.is_current, &self.collection)?;
        self.is_current = true;
        self.search.pattern_matching_relative_path(
            alloc,
            question.path,
            question.case,
            question.is_dir,
            &mut self.outcome,
        )?;
        number_answers(&self.outcome, &mut self.numbers)?;
        self.has_answers = true;
        Ok(self.num_answers())
    }

    /// The number of answers to the last question, and 0 after a change.
    pub fn num_answers(&self) -> usize
        ensures { result ≡ length (unwrap_or self.now.answers []) }
    {
        if !self.has_answers {
            return 0;
        }
        let selected = self.outcome.selected_len();
        if selected > 0 {
            selected
        } else {
            self.numbers.len()
        }
    }

    /// The answer with this number, from 0: none if there are no answers, or not so many.
    #[inline(always)]
    pub fn answer(&self, number: usize) -> Option<Match<'_>>
        ensures { option_map match_view result
            ≡ option_and_then (λ answers. slice_get answers number) self.now.answers }
    {
        if !self.has_answers {
            return None;
        }
        if self.outcome.selected_len() > 0 {
            return self.outcome.selected_match(number);
        }
        let slot = self.numbers.get(number)?;
        self.outcome.match_by_id(AttributeId(*slot))
    }

    /// The answers to the last question, in their order, and none after a change.
    pub fn answers(&self) -> Answers<'_>
        ensures { result ≡ unwrap_or self.now.answers [] }
    {
        Answers::of(self)
    }

    /// The answer to the last question for the attribute with this number, whatever is selected, and none after a change. An
    /// attribute that a line sets to unspecified (`!x`) has an answer, and one that no line assigns has none.
    ///
    /// Without a selection it is there for each attribute that has one, and otherwise for the selected names and for each macro
    /// that is the cause of an answer, of its cause's, and so on. For other attributes it may be missing, since a search skips
    /// those that no selected name depends on, and stops once the selected names have answers.
    pub fn found(&self, id: AttributeId) -> Option<Match<'_>>
        ensures { option_map match_view result ≡ slice_index_or self.now.found id.0 None }
    {
        if !self.has_answers {
            return None;
        }
        self.outcome.match_by_id(id)
    }

    /// The number of the attribute that the answer with this index is for: that of the selected name, and without a selection
    /// that of the answer's name. There is none if there is no such answer, or if the selected text is no name of the lists.
    pub fn number_of(&self, answer: usize) -> Option<AttributeId>
        ensures { option_map (λ id. id.0) result ≡ number_answered self.now answer }
    {
        if !self.has_answers {
            return None;
        }
        if self.outcome.selected_len() > 0 {
            return self.outcome.selected_number(answer);
        }
        let slot = self.numbers.get(answer)?;
        Some(AttributeId(*slot))
    }

    /// The lines that were dropped of the last list that was added.
    pub fn dropped(&self) -> &[Dropped]
        ensures { result.now ≡ self.now.dropped }
    {
        &self.dropped
    }

    /// How many names there are. Their numbers are those below.
    pub fn num_names(&self) -> usize
        ensures { result ≡ length self.now.state.names }
    {
        self.collection.len()
    }

    /// The name of an attribute or macro, as of the macro that is the cause of an answer. There is none if no name has this number.
    pub fn name_of(&self, id: AttributeId) -> Option<&str>
        ensures { option_map (λ name. name.now) result ≡ slice_get self.now.state.names id.0 }
    {
        self.collection.name_of(id)
    }
}

// Whether a current outcome is so with and without the last list: it defines no macro, and there are as many names as before.
fn stays_current(
    is_current: bool,
    search: &Search,
    collection: &MetadataCollection,
    names: usize,
) -> bool
    ensures current { result ≡ true → is_current ≡ true }
    ensures macros { result ≡ true → defines_macros (last_lines (lists_in search.now)) ≡ false }
    ensures names { result ≡ true → length collection.now.names ≡ names }
{
    is_current && !search.last_defines_macros() && collection.len() == names
}

// Empties an outcome for the next question. It is initialised only if names or macros have changed.
fn prepare(
    alloc: Global,
    outcome: &mut Outcome,
    is_current: bool,
    collection: &MetadataCollection,
) -> Result<(), AllocError>
    requires { is_current ≡ true → IsCurrentFor collection.now outcome.old }
    ensures ready { OnOk result (IsNarrowed
        collection.now (names_selected outcome.old.selection) outcome.new) }
    ensures refused { OnErr result (is_current ≡ false) }
    ensures names { names_selected outcome.new.selection ≡ names_selected outcome.old.selection }
{
    if is_current {
        outcome.reset();
        return Ok(());
    }
    outcome.initialize(alloc, collection)?;
    let names = selection::copy_of(alloc, &outcome.selected)?;
    outcome.narrow(alloc, collection, names)
}

// Initialises an outcome if names or macros have changed.
fn refresh(
    alloc: Global,
    outcome: &mut Outcome,
    is_current: bool,
    collection: &MetadataCollection,
) -> Result<(), AllocError>
    requires { is_current ≡ true → IsCurrentFor collection.now outcome.old }
    ensures current { OnOk result (IsCurrent outcome.new collection.now) }
    ensures kept { is_current ≡ true → outcome.new ≡ outcome.old }
    ensures names { names_selected outcome.new.selection ≡ names_selected outcome.old.selection }
{
    if is_current {
        return Ok(());
    }
    outcome.initialize(alloc, collection)
}
