//! What has no text.
mod files;
mod memory;
mod modes;
mod names;
mod order;
mod parsers;
mod patterns;
mod texts;
mod types;
