//! The texts of refusals.
use attr_glob::quote::ansi_c::UndoError;
use attr_lists::parse;
use attr_text::name;
use bstr::BStr;
use gix_attributes::files::ReadError;
use gix_attributes::search::AddError;
use std::alloc::AllocError;
use std::io::{self, ErrorKind};

#[test]
fn refusals_of_texts_have_their_texts(rt: HostRuntime) -> Result<(), AllocError> {
    let refused = name::Error::InvalidName(BStr::from("-a")).to_string(rt.alloc())?;
    let text = "Attribute has non-ascii characters or starts with '-'";
    assert_eq!(rt; refused.as_str(), text);
    let lines = parse::Error::OutOfMemory.to_string(rt.alloc())?;
    assert_eq!(rt; lines.as_str(), "out of memory");
    let quote = UndoError::OutOfMemory.to_string(rt.alloc())?;
    assert_eq!(rt; quote.as_str(), "out of memory");
    Ok(())
}

#[test]
fn errors_of_additions_have_their_texts(rt: HostRuntime) -> Result<(), AllocError> {
    let failed = AddError::Io(io::Error::from(ErrorKind::Other)).to_string(rt.alloc())?;
    assert_eq!(rt; failed.as_str(), "reading failed");
    let refused = AddError::OutOfMemory.to_string(rt.alloc())?;
    assert_eq!(rt; refused.as_str(), "out of memory");
    Ok(())
}

#[test]
fn errors_of_reads_have_their_texts(rt: HostRuntime) -> Result<(), AllocError> {
    let failed = ReadError::Device(io::Error::from(ErrorKind::Other)).to_string(rt.alloc())?;
    assert_eq!(rt; failed.as_str(), "reading failed");
    let refused = ReadError::OutOfMemory.to_string(rt.alloc())?;
    assert_eq!(rt; refused.as_str(), "out of memory");
    Ok(())
}
