//! The lists that the search of `gix_attributes` goes through, for one pair of bodies.

use crate::parts::{
    COUNT, SOURCE, START_SOURCE, START_SPELLING, push_items, push_macros, push_rows,
};
use attr_vectors::plain::{Item, Row, State};
use gix_attributes::Search;
use gix_attributes::search::MetadataCollection;
use std::alloc::{AllocError, Global};

/// Searches over one collection that has the macros.
#[derive(Drop)]
pub struct Lists {
    pub collection: MetadataCollection,
    /// For each attribute a search whose only line unsets it.
    pub starts: Vec<Search>,
    /// For each file a search of its lines.
    pub files: Vec<Search>,
}

impl Lists {
    /// Registers the attributes in the order of their numbers, the bodies and the lists of files.
    pub(crate) fn new(
        alloc: Global,
        bodies: &[&[Item<'static>]],
        files: &[Vec<Row<'_, 'static>>],
    ) -> Result<Lists, AllocError> {
        let mut lists = Lists {
            collection: MetadataCollection::new(alloc),
            starts: Vec::new(alloc),
            files: Vec::new(alloc),
        };
        lists.add_macros(alloc, bodies)?;
        for attribute in 0..COUNT {
            let state = State::Unset;
            let mut text = String::from_str(alloc, START_SPELLING)?;
            push_items(&mut text, &[Item { attribute, state }])?;
            let search = lists.search_of(alloc, START_SOURCE, &text)?;
            lists.starts.push(search)?;
        }
        for rows in files {
            let mut text = String::new(alloc);
            push_rows(&mut text, rows)?;
            let search = lists.search_of(alloc, SOURCE, &text)?;
            lists.files.push(search)?;
        }
        Ok(lists)
    }

    // The first line is never searched. It has the names in the order of their numbers.
    fn add_macros(&mut self, alloc: Global, bodies: &[&[Item<'static>]]) -> Result<(), AllocError> {
        let mut text = String::from_str(alloc, "* m n a\n")?;
        push_macros(&mut text, bodies)?;
        self.search_of(alloc, "macros", &text)?;
        Ok(())
    }

    // A search of one list.
    fn search_of(&mut self, alloc: Global, source: &str, text: &str) -> Result<Search, AllocError> {
        let mut search = Search::new(alloc);
        let (source, collection) = (String::from_str(alloc, source)?, &mut self.collection);
        search.add_patterns_buffer(alloc, text.as_bytes(), source, None, collection, true)?;
        Ok(search)
    }
}
