//! A SEQUENCE or a SET (X.680 25, 27) as a struct.
use crate::parts::{
    Part, defaults_text, ends_with_rest, has_defaults, names_term, parts_text, tree_text,
    write_text,
};
use crate::plan::Plan;
use crate::template::Values;
use rasn_schema::Type;
use std::alloc::AllocError;

/// A struct with its impls.
const STRUCT: &str = "@head@@imports@
@doc@#[derive(Debug, PartialEq, Eq, Drop)]
pub struct @Name@ {
@fields@}

@parts@
impl AsnType for @Name@ {
    ghost use Rattle.std.specs.Prelude.{@prelude@};
    ghost use @tag_use@;
    ghost use Rattle.rasn_types.specs.Shapes.{@shape_use@};
    ghost use Rattle.rasn_types.specs.Trees.{unconstrained};

    ghost TAG = { @tag@ };

    const TAG: Tag = @const_tag@;

    ghost CONSTRAINTS = { unconstrained };

    const CONSTRAINTS: Constraints = Constraints::NONE;

    ghost shape = { @shape@ (@tag@) ⟦<Parts as @Trait@>⟧.parts };

    ghost tree = { λ a. ⟦<Parts as @Trait@>⟧.tree (@tree@) };

    ghost own = { refl };
}

impl LawfulEq for @Name@ {
    ghost use Rattle.rasn_types.specs.Deciding.{deciding};
@laws@
    ghost decides = { @search@ };
}

impl Present for @Name@ {
    ghost use Rattle.rasn_types.specs.Equality.{parts_not_absent};

    ghost present = { λ _. parts_not_absent };
}

impl Decode for @Name@ {
@beyond@@errors@    fn decode_with_tag_and_constraints(
        decoder: &mut Decoder<'_>,
        tag: Tag,
        _constraints: &Constraints,
    ) -> Result<@Name@, DecodeError> {
@read@    }
}

impl Encode for @Name@ {
    fn encode_with_tag_and_constraints(
        &self,
        encoder: &mut Encoder,
        tag: Tag,
        _constraints: &Constraints,
        _identifier: Identifier,
    ) -> Result<(), EncodeError> {
@write@    }

    fn is_present(&self) -> bool {
        true
    }
}
@defaults@";

impl Plan<'_> {
    /// Returns the text of the file of a SEQUENCE or a SET.
    pub(crate) fn struct_text(&self, id: usize) -> Result<String, AllocError> {
        let parts = self.parts_of(id)?;
        let parts = parts.as_slice();
        let laws = self.laws_of(id)?;
        let mut values = self.values_of(id)?;
        self.add_components(&mut values, id, parts);
        values.add(
            "imports",
            self.imports_of(&laws, has_defaults(parts), false),
        );
        values.add("laws", Ok(laws.uses));
        values.add("search", Ok(laws.search));
        values.filled(STRUCT)
    }

    /// Adds what a SEQUENCE or a SET has of its parts.
    fn add_components(&self, values: &mut Values, id: usize, parts: &[Part<'_>]) {
        let is_set = matches!(self.type_of(id), Type::Set { .. });
        let names = names_term(self.alloc, parts);
        add_kind(values, is_set, ends_with_rest(parts));
        values.add("fields", self.fields_text(id, parts));
        values.add("parts", parts_text(self.alloc, parts));
        values.add("tree", tree_text(self.alloc, parts));
        let beyond = self.beyond_of_struct(id, is_set, values.value_of("tree"));
        values.add("beyond", beyond);
        values.add("errors", self.errors_of_struct(id, is_set, names));
        values.add("read", self.read_text(id, parts, is_set));
        values.add("write", write_text(self.alloc, parts, is_set));
        values.add("defaults", defaults_text(self.alloc, parts));
    }
}

/// Adds the words in which a SEQUENCE, a SET and a SET with an extension marker differ.
fn add_kind(values: &mut Values, is_set: bool, is_extensible: bool) {
    let (prelude, shape) = match (is_set, is_extensible) {
        (false, _) => ("refl", "seq"),
        (true, false) => ("false, refl", "sorted_set false"),
        (true, true) => ("refl, true", "sorted_set true"),
    };
    values.add_str("prelude", prelude);
    values.add_str("shape", shape);
    values.add_str("shape_use", if is_set { "sorted_set" } else { "seq" });
    values.add_str(
        "Trait",
        if is_set {
            "DecodeSetParts"
        } else {
            "DecodeParts"
        },
    );
}
