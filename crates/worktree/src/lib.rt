//! The attributes of the paths of a worktree: a worked caller of `gix_attributes`. Its contracts state what its
//! searches find, by the clauses and laws of that crate alone.
#![tactic(auto)]

ghost use Rattle.std.specs.Prelude.{◌≡◌, ◌⊎◌, OnOk, OnErr};
ghost use Rattle.gix_attributes.specs.Lookups.{OfTheOnlyTable, ReturnsAnswers, setting_in};
ghost use Rattle.worktree.specs.Worktrees.{AddsGlobalFile, EntersDirectory, VisitsDirectory, lookup, no_attributes_files, without_last_directory};

use bstr::BStr;
use gix_attributes::Search;
use gix_attributes::glob::pattern::Case;
use gix_attributes::search::{MetadataCollection, Outcome, laws};
use std::alloc::{AllocError, Global};
use std::marker::Model;

/// The attributes files of a worktree: global ones, and those of directories, from the top to one of them, which take
/// precedence. One collection numbers the names of both.
#[derive(Drop)]
pub struct Worktree {
    globals: Search,
    directories: Search,
    collection: MetadataCollection,
}

impl Model for Worktree {
    ghost use Rattle.worktree.specs.Worktrees.{Files};

    ghost Value = { Files };

    ghost use Rattle.worktree.specs.WorktreeView.{IsKeptWorktree, files_of};

    ghost view = { files_of };

    ghost invariant = { IsKeptWorktree };
}

/// The attributes file of a directory.
#[derive(Clone, Copy)]
pub struct File<'a> {
    /// The path of the file from the top.
    pub path: &'a str,
    /// The contents of the file.
    pub bytes: &'a [u8],
}

/// A path that is no directory, and the names of the attributes that are looked up for it.
#[derive(Clone, Copy)]
pub struct Question<'a> {
    /// The path from the top.
    pub path: BStr<'a>,
    /// The names, in the order of the answers.
    pub names: &'a [&'a str],
}

impl Worktree {
    /// A worktree without files. It takes no memory.
    pub fn new(alloc: Global) -> Worktree
        ensures { result ≡ no_attributes_files }
    {
        Worktree {
            globals: Search::new(alloc),
            directories: Search::new(alloc),
            collection: MetadataCollection::new(alloc),
        }
    }

    /// Adds a global file, which may define macros, and whose patterns match all paths.
    ///
    /// # Errors
    ///
    /// If memory runs out. Nothing changes then.
    pub fn add_global(&mut self, alloc: Global, file: File<'_>) -> Result<(), AllocError>
        ensures added { OnOk result (AddsGlobalFile file.entry self.old self.new) }
        ensures refused { OnErr result (self.new ≡ self.old) }
    {
        let (source, collection) = (String::from_str(alloc, file.path)?, &mut self.collection);
        self.globals
            .add_patterns_buffer(alloc, file.bytes, source, None, collection, true)?;
        laws::registers::names_stay();
        Ok(())
    }

    /// Looks names up for a path in a directory whose file comes after those that are there, and removes this file again.
    /// Its names stay in the collection, without definitions.
    ///
    /// # Errors
    ///
    /// If memory runs out. The file was not added then, or it was removed again.
    pub fn look_up_in(
        &mut self,
        alloc: Global,
        file: File<'_>,
        question: Question<'_>,
        out: &mut Outcome,
    ) -> Result<(), AllocError>
        ensures answers { OnOk result ((visit : VisitsDirectory file.entry self.old self.new)
            × (let q = lookup question.entry visit.entered in
            OfTheOnlyTable (setting_in q) (ReturnsAnswers q out.new))) }
        ensures refused { OnErr result ((self.new ≡ self.old)
            ⊎ VisitsDirectory file.entry self.old self.new) }
        ensures directories { self.new.directories ≡ self.old.directories }
        ensures globals { self.new.globals ≡ self.old.globals }
    {
        self.enter(alloc, file)?;
        let answered = self.look_up(alloc, question, out);
        self.leave();
        answered
    }

    /// Adds the file of a directory.
    ///
    /// # Errors
    ///
    /// If memory runs out. Nothing changes then.
    pub fn enter(&mut self, alloc: Global, file: File<'_>) -> Result<(), AllocError>
        ensures entered { OnOk result (EntersDirectory file.entry self.old self.new) }
        ensures refused { OnErr result (self.new ≡ self.old) }
    {
        let (source, collection) = (String::from_str(alloc, file.path)?, &mut self.collection);
        self.directories
            .add_patterns_buffer(alloc, file.bytes, source, Some(""), collection, false)?;
        laws::registers::names_stay();
        Ok(())
    }

    /// Removes the file of the last directory, if there is one. Its names stay in the collection, without definitions.
    pub fn leave(&mut self)
        ensures { self.new ≡ without_last_directory self.old }
    {
        let _ = self.directories.pop_pattern_list(&mut self.collection);
        laws::registers::names_stay();
    }

    /// Looks up names for a path, in the lists of directories and then in the global ones: so those of directories take
    /// precedence.
    ///
    /// # Errors
    ///
    /// If memory runs out.
    pub fn look_up(
        &self,
        alloc: Global,
        question: Question<'_>,
        out: &mut Outcome,
    ) -> Result<(), AllocError>
        ensures { OnOk result (let q = lookup question.entry self.now in
            OfTheOnlyTable (setting_in q) (ReturnsAnswers q out.new)) }
    {
        out.initialize_with_selection(alloc, &self.collection, question.names)?;
        let (path, case, is_dir) = (question.path, Case::Sensitive, Some(false));
        let (first, second) = (&self.directories, &self.globals);
        first.pattern_matching_relative_path(alloc, path, case, is_dir, out)?;
        second.pattern_matching_relative_path(alloc, path, case, is_dir, out)?;
        laws::registers::bodies_have_names();
        laws::further_searches_join();
        laws::answers_are_of_the_only_table();
        Ok(())
    }
}
