//! The calls of types.
use attr_lists::types::{AttributeId, MatchKind, Metadata};

#[test]
fn metadata_begins_without_body(rt: HostRuntime) {
    let numbers = [
        (AttributeId::default(), 18_446_744_073_709_551_615),
        (AttributeId(2), 2),
    ];
    for (id, number) in numbers {
        let metadata = Metadata::of(rt.alloc(), id);
        assert_eq!(rt;
            (metadata.id.0, metadata.macro_attributes.len()),
            (number, 0)
        );
    }
}

#[test]
fn kinds_have_their_source(rt: HostRuntime) {
    let id = Some(AttributeId(5));
    let attribute = MatchKind::Attribute { macro_id: id };
    for parent_macro_id in [None, id] {
        let definition = MatchKind::Macro { parent_macro_id };
        assert_eq!(rt; definition.source_id(), parent_macro_id);
    }
    assert_eq!(rt; attribute.source_id(), id);
}
