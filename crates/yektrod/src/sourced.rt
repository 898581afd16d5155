//! An engine whose lists have sources of any bytes.

ghost use Rattle.std.specs.Prelude.{◌≡◌, ◌↔◌, ◌<◌, IfOk, IsTrue, OnErr, OnOk, Some, false, length, map, option_map};
ghost use Rattle.std.specs.Fmt.{decimal};
ghost use Rattle.gix_attributes.specs.EngineStates.{AnswersTo, FindsFor, unasked, with_list_below, with_selection, without_answers, without_last};
ghost use Rattle.gix_attributes.specs.EngineView.{started};
ghost use Rattle.yektrod.specs.Sourced.{AreLabelled, told_content, list_number, added_list_view, source_in};

use gix_attributes::engine::laws::sources_only_tell;
use gix_attributes::engine::{Below, Engine, Question};
use std::alloc::{AllocError, Global};
use std::marker::Model;

/// A list to add.
#[derive(Clone, Copy)]
pub struct SourcedList<'a> {
    /// Whether it may define macros.
    pub allow_macros: bool,
    /// What is told as the source of its answers: any bytes.
    pub source: &'a [u8],
    /// What the paths begin with to which its patterns apply: all paths without one.
    pub base: Option<&'a [u8]>,
    /// The bytes of the file.
    pub buffer: &'a [u8],
}

/// An engine, and the sources of its lists. In the engine each list has a label in the place of its source: its index in decimal
/// digits. The built-in list is the first one, and keeps its own label, which is no number.
pub struct SourcedEngine {
    engine: Engine,
    // By the indexes of the lists.
    sources: Vec<Vec<u8>>,
}

// By hand, so that a proof drops it by one call.
impl Drop for SourcedEngine {
    fn drop(self) {
        let SourcedEngine {
            engine: _,
            sources: _,
        } = self;
    }
}

impl Model for SourcedEngine {
    ghost use Rattle.yektrod.specs.SourcedContents.{SourcedContent};

    ghost Value = { SourcedContent };

    ghost use Rattle.yektrod.specs.inner.SoundSources.{IsSoundSourced, sourced_view};

    ghost view = { sourced_view };

    ghost invariant = { IsSoundSourced };
}

impl SourcedEngine {
    /// An engine with the built-in list, and without a selection.
    ///
    /// # Errors
    ///
    /// If there is no memory.
    pub fn new(alloc: Global) -> Result<SourcedEngine, AllocError>
        ensures { IfOk result (λ new. told_content new ≡ unasked started) }
    {
        let source = Vec::from_slice(alloc, b"[builtin]")?;
        let mut sources = Vec::new(alloc);
        sources.push(source)?;
        let engine = Engine::new(alloc)?;
        Ok(SourcedEngine { engine, sources })
    }

    /// Adds a list as the last one.
    ///
    /// # Errors
    ///
    /// If there is no memory. Nothing changes then.
    pub fn add(&mut self, alloc: Global, list: SourcedList<'_>) -> Result<(), AllocError>
        ensures added { OnOk result (told_content self.new
            ≡ with_list_below (added_list_view list.entry) (told_content self.old)) }
        ensures refused { OnErr result (self.new ≡ self.old) }
    {
        let label = self.sources.len().to_string(alloc)?;
        let source = Vec::from_slice(alloc, list.source)?;
        self.sources.push(source)?;
        let below = Below {
            allow_macros: list.allow_macros,
            source: &label,
            base: list.base,
            buffer: list.buffer,
        };
        sources_only_tell();
        match self.engine.add_below(alloc, below) {
            Ok(()) => Ok(()),
            Err(error) => {
                self.sources.pop();
                Err(error)
            }
        }
    }

    /// Removes the last list, and returns whether there was one.
    pub fn pop(&mut self) -> bool
        ensures found { IsTrue result ↔ 0 < length self.old.labelled.state.lists }
        ensures popped { IsTrue result →
            told_content self.new ≡ without_last (told_content self.old) }
        ensures none { result ≡ false → self.new ≡ self.old }
    {
        if !self.engine.pop() {
            return false;
        }
        sources_only_tell();
        self.sources.pop();
        true
    }

    /// Selects the names that are looked up, in the place of those before.
    ///
    /// # Errors
    ///
    /// If there is no memory. Nothing changes then.
    pub fn select(&mut self, alloc: Global, names: &[&str]) -> Result<(), AllocError>
        ensures selected { OnOk result (told_content self.new
            ≡ with_selection (map (λ name. name.now) names.now) (told_content self.old)) }
        ensures refused { OnErr result (self.new ≡ self.old) }
    {
        self.engine.select(alloc, names)
    }

    /// Looks a path up, and returns the number of answers.
    ///
    /// # Errors
    ///
    /// If there is no memory. No answers are left then, and nothing else changes.
    pub fn ask(&mut self, alloc: Global, question: Question<'_>) -> Result<usize, AllocError>
        ensures answers { OnOk result (AnswersTo question.entry.path.bytes.now
            question.entry.case question.entry.is_dir
            (told_content self.old) (told_content self.new)) }
        ensures found { OnOk result (FindsFor question.entry.path.bytes.now
            question.entry.case question.entry.is_dir
            (told_content self.old) (told_content self.new)) }
        ensures labelled { OnOk result (AnswersTo question.entry.path.bytes.now
            question.entry.case question.entry.is_dir self.old.labelled self.new.labelled) }
        ensures found_labelled { OnOk result (FindsFor question.entry.path.bytes.now
            question.entry.case question.entry.is_dir self.old.labelled self.new.labelled) }
        ensures count { IfOk result (λ count.
            option_map length (told_content self.new).answers ≡ Some count) }
        ensures refused { OnErr result
            (told_content self.new ≡ without_answers (told_content self.old)) }
    {
        sources_only_tell();
        self.engine.ask(alloc, question)
    }

    /// The engine, whose lists have labels in the place of their sources.
    pub fn labelled(&self) -> &Engine
        ensures { result.now ≡ self.now.labelled }
    {
        &self.engine
    }

    /// A fact of each engine: the label of each list says its index.
    pub fn labels_say_indexes(&self)
        ensures { AreLabelled self.now }
    {
        let _engine = &self.engine;
    }

    /// How many lists there are.
    pub fn num_lists(&self) -> usize
        ensures { result ≡ length self.now.labelled.state.lists }
    {
        self.sources.len()
    }

    /// The source of the list with this label.
    #[inline(always)]
    pub fn source(&self, label: &str) -> &[u8]
        ensures { result.now ≡ source_in self.now.sources label.now }
    {
        match self.sources.get(list_index(label)) {
            Some(source) => source,
            None => b"",
        }
    }
}

/// The index that a label says, and 0 of one that is no number.
#[inline(always)]
pub fn list_index(label: &str) -> usize
    ensures { result ≡ list_number label.now }
{
    label.parse::<usize>().unwrap_or(0)
}
