//! An ENUMERATED (X.680 20) as an enum.
use crate::defaults::number_term;
use crate::plan::Plan;
use crate::tags::tag_type;
use crate::template::{Values, used};
use crate::words::variant;
use rasn_schema::{NamedNumber, Type};
use rasn_types::types::Tag;
use std::alloc::{AllocError, Global};

/// An enum of numbers.
const NAMES: &str = "
@doc@#[derive(Clone, Copy, Debug, PartialEq, Eq, Drop)]
pub enum @Name@ {
@variants@}

impl Enumerated for @Name@ {
    ghost use Rattle.std.specs.Prelude.{@prelude@, [], ◌∷◌};
    ghost use Rattle.rasn_types.specs.OwnEnumerated.{all_listed, all_distinct};
    ghost use Rattle.@crate@.specs.contracts.@file@.@Name@.{enum as own_enum};
    ghost use Rattle.@crate@.specs.declared.@file@.@Name@.TheVariants.{@names@};

    ghost known = { @known@ };

    ghost number = { elim [ @numbers@ ] };

    ghost listed = { all_listed own_enum (elim [ @numbers@ ]) (@known@) refl };

    ghost distinct = { all_distinct own_enum _ refl };

    ghost fits = { refl };

    fn discriminant(&self) -> isize {
        match self {
@write@        }
    }

    fn from_discriminant(discriminant: isize) -> Option<@Name@> {
        match discriminant {
@read@            _ => None,
        }
    }
}
";

/// What a value is read from and written as.
const ENUMERATED: &str = "
impl AsnType for @Name@ {
    ghost use Rattle.std.specs.Prelude.{refl};
    ghost use @tag_use@;
    ghost use Rattle.rasn_types.specs.Shapes.{leaf, enumerated, number};
    ghost use Rattle.rasn_types.specs.Trees.{unconstrained};

    ghost TAG = { @tag@ };

    const TAG: Tag = @const_tag@;

    ghost CONSTRAINTS = { unconstrained };

    const CONSTRAINTS: Constraints = Constraints::NONE;

    ghost shape = { leaf (enumerated ⟦<@Name@ as Enumerated>⟧.known) (@tag@) unconstrained };

    ghost tree = { λ a. number (⟦<@Name@ as Enumerated>⟧.number a) };

    ghost own = { refl };
}

impl LawfulEq for @Name@ {
    ghost use Rattle.std.specs.Prelude.{refl};
    ghost use Rattle.rasn_types.specs.OwnEnumerated.{all_decided};
    ghost use Rattle.@crate@.specs.contracts.@file@.@Name@.{enum as own_enum};

    ghost decides = { all_decided own_enum ⟦<@Name@ as Enumerated>⟧.number refl };
}

impl Present for @Name@ {
    ghost use Rattle.rasn_types.specs.Equality.{number_not_absent};

    ghost present = { λ a. number_not_absent (⟦<@Name@ as Enumerated>⟧.number a) };
}

impl Decode for @Name@ {
    ghost use Rattle.rasn_de.specs.Leaves.{FailsAs};
    ghost use Rattle.rasn_de.specs.Enumerated.{EnumeratedAt};

    ghost errors = { λ tag _ old. FailsAs (EnumeratedAt ⟦<@Name@ as Enumerated>⟧.known old.rule tag old.rest) old };

    #[tactic(auto, unfolding(rasn_types::specs::Grammar::Reads))]
    fn decode_with_tag_and_constraints(
        decoder: &mut Decoder<'_>,
        tag: Tag,
        _constraints: &Constraints,
    ) -> Result<@Name@, DecodeError> {
        decoder.decode_enumerated(tag)
    }
}

impl Encode for @Name@ {
    fn encode_with_tag_and_constraints(
        &self,
        encoder: &mut Encoder,
        tag: Tag,
        _constraints: &Constraints,
        identifier: Identifier,
    ) -> Result<(), EncodeError> {
        encoder.encode_enumerated(tag, self, identifier)
    }

    fn is_present(&self) -> bool {
        true
    }
}
";

impl Plan<'_> {
    /// Returns the text of the file of an ENUMERATED.
    pub(crate) fn enumerated_text(
        &self,
        id: usize,
        numbers: &[NamedNumber],
    ) -> Result<String, AllocError> {
        let mut values = self.values_of(id)?;
        self.add_numbers(&mut values, self.names_of(id).0, numbers)?;
        let names = values.filled(NAMES)?;
        let impls = values.filled(ENUMERATED)?;
        let head = values.value_of("head");
        format!(in self.alloc; "{head}use rasn::prelude::*;\n{names}{impls}")
    }

    /// Returns the text of the file of an ENUMERATED with an extension marker, whose numbers may
    /// have no name.
    pub(crate) fn extensible_text(
        &self,
        id: usize,
        names: &[NamedNumber],
    ) -> Result<String, AllocError> {
        let values = self.values_of(id)?;
        let (head, doc) = (values.value_of("head"), values.value_of("doc"));
        let (name, file) = self.names_of(id);
        let named = format!(in self.alloc; "{name}Name")?;
        let ty = self.extensible_type(self.type_of(id), named.as_str())?;
        let mut values = Values::new(self.alloc);
        values.add_str("doc", "/// The names of the numbers.\n");
        values.add_str("crate", self.options.crate_name.as_str());
        values.add_str("file", file);
        self.add_numbers(&mut values, named.as_str(), names)?;
        values.add("Name", Ok(named));
        let names = values.filled(NAMES)?;
        format!(in self.alloc;
            "{head}use rasn::prelude::*;\n\n{doc}pub type {name} = {ty};\n{names}"
        )
    }

    /// Returns the type of numbers, of which those of an enum have names.
    fn extensible_type(&self, ty: &Type, named: &str) -> Result<String, AllocError> {
        if ty.tag() == Tag::ENUMERATED {
            return format!(in self.alloc; "Extensible<{named}>");
        }
        let tag = tag_type(self.alloc, ty.tag())?;
        format!(in self.alloc; "Implicit<{tag}, Extensible<{named}>>")
    }

    /// Adds the values of the names of an enum with these numbers.
    fn add_numbers(
        &self,
        values: &mut Values,
        name: &str,
        numbers: &[NamedNumber],
    ) -> Result<(), AllocError> {
        let mut texts = Texts::new(self.alloc);
        for named in numbers {
            texts.push_number(self.alloc, name, named)?;
        }
        let signs = ["neg_ℤ", "pos"];
        values.add(
            "prelude",
            used(self.alloc, texts.known.as_str(), &signs, "refl"),
        );
        texts.known.push_str("[]")?;
        values.add("variants", Ok(texts.variants));
        values.add("names", Ok(texts.names));
        values.add("known", Ok(texts.known));
        values.add("numbers", Ok(texts.numbers));
        values.add("read", Ok(texts.read));
        values.add("write", Ok(texts.write));
        Ok(())
    }
}

/// The texts of an enum that are made number by number.
#[derive(Drop)]
struct Texts {
    variants: String,
    names: String,
    known: String,
    numbers: String,
    read: String,
    write: String,
}

impl Texts {
    /// Returns the texts of no numbers.
    fn new(alloc: Global) -> Texts {
        Texts {
            variants: String::new(alloc),
            names: String::new(alloc),
            known: String::new(alloc),
            numbers: String::new(alloc),
            read: String::new(alloc),
            write: String::new(alloc),
        }
    }

    /// Adds a number of the enum with this name.
    fn push_number(
        &mut self,
        alloc: Global,
        name: &str,
        named: &NamedNumber,
    ) -> Result<(), AllocError> {
        let variant = variant(alloc, named.name.as_str())?;
        let (notation, number) = (named.name.as_str(), named.number);
        let term = number_term(alloc, number as i128)?;
        if !self.names.is_empty() {
            self.names.push_str(", ")?;
            self.numbers.push_str(" | ")?;
        }
        writeln!(
            self.variants,
            "    /// `{notation} ({number})`\n    {variant},"
        )?;
        write!(self.names, "{variant}")?;
        write!(self.known, "{term} ∷ ")?;
        write!(self.numbers, "{variant} ↦ {term}")?;
        writeln!(
            self.read,
            "            {number} => Some({name}::{variant}),"
        )?;
        writeln!(self.write, "            {name}::{variant} => {number},")
    }
}
