//! A parser of its own, and what its lists are read from.
ghost use Rattle.std.specs.Prelude.{◌≡◌, [], ◌∷◌, IfOk, map, string_bytes};

use attr_glob::search;
use attr_glob::search::pattern::{List, Mapping};
use std::alloc::{AllocError, Global};

// No mappings: the file that was read is reported.
#[derive(PartialEq, Eq, PartialOrd, Ord, Hash, Debug, Drop)]
struct FileName;

impl search::Pattern for FileName {
    type Value = u8;

    type Dropped = String;

    ghost use Rattle.std.specs.Prelude.{◌≡◌, List, [], ◌∷◌, map, string_bytes};

    ghost reads = { λ parse bytes source patterns dropped.
        (patterns ≡ []) × (map string_bytes dropped ≡ source ∷ []) };

    fn bytes_to_patterns(
        &self,
        alloc: Global,
        _bytes: &[u8],
        source: &str,
    ) -> Result<(Vec<Mapping<u8>>, Vec<String>), AllocError> {
        let mut names = Vec::new(alloc);
        names.push(String::from_str(alloc, source)?)?;
        Ok((Vec::new(alloc), names))
    }
}

// The file from which a list is read, as the list's parser sees it.
fn file_read(alloc: Global, source: String) -> Result<Vec<String>, AllocError>
    ensures { IfOk result (λ names. map string_bytes names.items ≡ string_bytes source ∷ []) }
{
    let (_, names) = List::from_bytes(alloc, b"* a", source, Some(""), FileName)?;
    Ok(names)
}

// Whether this is the one file that is read.
fn is_read(alloc: Global, source: &str) -> Result<bool, AllocError> {
    let names = file_read(alloc, String::from_str(alloc, source)?)?;
    Ok(names.len() == 1 && names[0].as_str() == source)
}

#[test]
fn sources_reach_the_parser(rt: HostRuntime) -> Result<(), AllocError> {
    assert!(rt; is_read(rt.alloc(), "")?);
    assert!(rt; is_read(rt.alloc(), ".gitattributes")?);
    assert!(rt; is_read(rt.alloc(), "sub/.gitattributes")?);
    Ok(())
}
