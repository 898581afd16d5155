//! Compares the search of `gix_attributes` with the plain one of `attr_vectors` over every small
//! setting, and prints how many there are. The first difference is printed, and ends the program
//! with status 1.
//!
//! A small setting has three attributes, two of which are macros with bodies of at most two items;
//! one line of at most two items, or two lines of one item each; a selection of some of the
//! attributes; and no slot, or one slot, that is filled before the search. An item sets its
//! attribute or unsets it.
#![tactic(auto)]

mod comparison;
mod lists;
mod parts;
mod real_search;
mod setting;

use crate::comparison::compare_all;
use anyhow::Result;

fn main(rt: HostRuntime) -> Result<()> {
    let compared = compare_all(rt.alloc())?;
    println!(rt; "{compared} settings agree")?;
    Ok(())
}
