//! A type with a constraint (X.680 51) as a struct of one field.
use crate::beyond::ERRORS_OF_CONSTRAINED;
use crate::bounds::bounds_of;
use crate::expression::push_word;
use crate::layout::{comment, is_short};
use crate::members::inner_of;
use crate::plan::Plan;
use crate::tags::add_tag;
use crate::template::{Values, used};
use crate::twins::constraints_of;
use rasn_schema::{LeafKind, Type};
use rasn_types::types::{Constraints, Tag};
use std::alloc::{AllocError, Global};

/// A struct of one field.
const CONSTRAINED: &str = "@head@@imports@
@doc@@reason@#[derive(Debug, PartialEq, Eq, Drop)]
pub struct @Name@ {
    /// The value.
    pub value: @inner@,
}

impl AsnType for @Name@ {
    ghost use Rattle.std.specs.Prelude.{@prelude@};
@range_use@    ghost use @tag_use@;
    ghost use Rattle.rasn_types.specs.Shapes.{tagged_as};

    ghost TAG = { @tag@ };

    const TAG: Tag = @const_tag@;

    ghost CONSTRAINTS = { @bounds@ };

    const CONSTRAINTS: Constraints = @const_bounds@;

    ghost shape = { tagged_as (@tag@) (@bounds@) ⟦<@inner@ as AsnType>⟧.shape };

    ghost tree = { λ a. ⟦<@inner@ as AsnType>⟧.tree a.value };

    ghost own = { refl };
}

impl LawfulEq for @Name@ {
    ghost use Rattle.rasn_types.specs.Deciding.{deciding};
@bits_use@@laws@
    ghost decides = { @search@ };
}

impl Present for @Name@ {
    ghost use Rattle.rasn_types.specs.Deciding.{deciding};
@bits_use@@laws@
    ghost present = { @search@ };
}

impl Decode for @Name@ {
@beyond@@errors@    fn decode_with_tag_and_constraints(
        decoder: &mut Decoder<'_>,
        tag: Tag,
        constraints: &Constraints,
    ) -> Result<@Name@, DecodeError> {
@read@        Ok(@Name@ { value })
    }
}

impl Encode for @Name@ {
    fn encode_with_tag_and_constraints(
        &self,
        encoder: &mut Encoder,
        tag: Tag,
        constraints: &Constraints,
        identifier: Identifier,
    ) -> Result<(), EncodeError> {
        self.value
            .encode_with_tag_and_constraints(encoder, tag, constraints, identifier)
    }

    fn is_present(&self) -> bool {
        @present@
    }
}
";

/// How it is found whether a list is present.
const LIST_PRESENT: &str = "self.value.is_present()";

/// From where ranges in contracts are imported.
const RANGE_USE: &str =
    "    ghost use Rattle.rasn_types.specs.declared.types.constraints.Bounded.TheVariants.{Range};\n";

/// From where the laws of bits with names are imported.
const BITS_USE: &str =
    "    ghost use Rattle.rasn_types.specs.NamedBits.{named_bits_decided, named_bits_not_absent};\n";

/// The term that finds a law of bits with names.
const BITS_SEARCH: &str =
    "Prim.search (named_bits_decided, named_bits_not_absent, deciding) depth 64";

impl Plan<'_> {
    /// Returns the text of the file of a type with a constraint.
    pub(crate) fn constrained_text(&self, id: usize) -> Result<String, AllocError> {
        let ty = self.type_of(id);
        let laws = self.laws_of(id)?;
        let mut values = self.values_of(id)?;
        values.add("imports", self.imports_of(&laws, false, false));
        let (bits_use, search) = search_of(ty, laws.search.as_str());
        values.add_str("bits_use", bits_use);
        values.add_str("search", search);
        values.add_str("laws", laws.uses.as_str());
        values.add_str("present", present_text(ty));
        let inner = self.inner_text(id, ty)?;
        values.add("beyond", self.beyond_of_constrained(id, inner.as_str()));
        add_field(&mut values, inner.as_str(), &constraints_of(ty))?;
        values.filled(CONSTRAINED)
    }

    /// Returns the text of the file of a type with this name and tag whose values are octets or a
    /// list of them, as the word says, and why they are.
    pub(crate) fn octets_text(
        &self,
        name: &str,
        word: &str,
        tag: Tag,
        notation: &str,
        reason: &str,
    ) -> Result<String, AllocError> {
        let mut values = Values::new(self.alloc);
        values.add_str("Name", name);
        values.add("head", comment(self.alloc, "//!", notation));
        values.add("doc", comment(self.alloc, "///", notation));
        values.add(
            "reason",
            format!(in self.alloc;
                "///\n/// Its values are the octets of encodings, since {reason}.\n"
            ),
        );
        values.add_str("imports", "use rasn::prelude::*;\n");
        values.add_str("search", "Prim.search deciding depth 64");
        values.add_str("present", if word == "Any" { "true" } else { LIST_PRESENT });
        add_tag(&mut values, tag);
        add_field(&mut values, word, &Constraints::NONE)?;
        values.filled(CONSTRAINED)
    }

    /// Returns the type of the value, without its tag and its constraint.
    fn inner_text(&self, id: usize, ty: &Type) -> Result<String, AllocError> {
        let mut text = String::new(self.alloc);
        push_word(&mut text, ty)?;
        if let Some(inner) = inner_of(ty) {
            write!(text, "{}>", self.expression(id, inner)?)?;
        }
        Ok(text)
    }
}

/// Adds the values of the names that are about the field of a struct: its type, how it is read, and
/// its constraints.
fn add_field(
    values: &mut Values,
    inner: &str,
    constraints: &Constraints,
) -> Result<(), AllocError> {
    let alloc = values.alloc;
    let (term, constant) = bounds_of(alloc, constraints)?;
    let words = ["None", "Some", "false", "neg_ℤ", "pos", "true"];
    values.add("prelude", used(alloc, term.as_str(), &words, "refl"));
    values.add_str(
        "range_use",
        if term.as_str().contains("Range") {
            RANGE_USE
        } else {
            ""
        },
    );
    values.add("bounds", Ok(term));
    values.add("const_bounds", Ok(constant));
    values.add_str("inner", inner);
    let errors = values.filled(ERRORS_OF_CONSTRAINED);
    values.add("errors", errors);
    values.add("read", read_text(alloc, inner));
    Ok(())
}

/// Returns how the field is read.
fn read_text(alloc: Global, inner: &str) -> Result<String, AllocError> {
    let call = format!(in alloc;
        "        let value = <{inner} as Decode>::decode_with_tag_and_constraints("
    )?;
    let line = format!(in alloc; "{call}decoder, tag, constraints)?;\n")?;
    if is_short(line.as_str().trim_end()) {
        return Ok(line);
    }
    format!(in alloc;
        "{call}\n            decoder,\n            tag,\n            constraints,\n        )?;\n"
    )
}

/// Returns how it is found whether a value of the type is present.
fn present_text(ty: &Type) -> &'static str {
    match ty {
        Type::SequenceOf { .. } | Type::SetOf { .. } => LIST_PRESENT,
        _ => "true",
    }
}

/// Returns from where laws are imported for a search, and the term that finds the law of a type:
/// this one, except for bits with names.
fn search_of<'text>(ty: &Type, search: &'text str) -> (&'static str, &'text str) {
    match ty {
        Type::Leaf {
            kind: LeafKind::NamedBits,
            ..
        } => (BITS_USE, BITS_SEARCH),
        _ => ("", search),
    }
}
