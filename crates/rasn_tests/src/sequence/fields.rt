//! The components of a SEQUENCE (X.680 25) or a SET (X.680 27), as programs that inspect types see
//! them.

use crate::reading::assert_facts;
use rasn_types::types::{Field, FieldPresence, Fields, HasPresence, Tag};

// Two components of SEQUENCE { first BOOLEAN, second INTEGER OPTIONAL, third NULL DEFAULT NULL }
// may be absent.
#[test]
fn counts_fields(rt: HostRuntime) {
    let fields = Fields::from_static([
        Field::new_required(0, Tag::BOOL, "first"),
        Field::new_optional(1, Tag::INTEGER, "second"),
        Field::new_default(2, Tag::NULL, "third"),
    ]);
    let [_, second, third] = fields.fields;
    assert_facts(
        &rt,
        &[
            fields.len() == 3,
            !fields.is_empty(),
            fields.number_of_optional_and_default_fields() == 2,
            second.presence() == FieldPresence::Optional,
            third.name == "third",
        ],
    );
}

#[test]
fn tells_that_there_are_none(rt: HostRuntime) {
    let none: Fields<0> = Fields::from_static([]);
    assert_facts(
        &rt,
        &[
            none.is_empty(),
            none.len() == 0,
            none.number_of_optional_and_default_fields() == 0,
        ],
    );
}
