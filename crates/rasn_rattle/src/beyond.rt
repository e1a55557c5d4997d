//! What contracts say of a value besides its tree: what it keeps of its octets, which is the offset
//! of a GeneralizedTime, and which errors there are if it can't be read.
use crate::choice::{Branch, names_text};
use crate::plan::Plan;
use crate::template::{Values, push_separator};
use rasn_schema::{LeafKind, Type};
use std::alloc::AllocError;

/// What the value of a SEQUENCE keeps.
const OF_SEQUENCE: &str = "    ghost use Rattle.std.specs.Prelude.{IfOk};
    ghost use Rattle.rasn_de.specs.Beyond.{BeyondInside};
    ghost use Rattle.rasn_de.specs.Constructed.{sequence_header};

    ghost beyond = { λ tag old result _. IfOk result (λ a. BeyondInside ⟦<Parts as DecodeParts>⟧.beyond (sequence_header tag) old (@tree@)) };

";

/// What the value of a SET keeps.
const OF_SET: &str = "    ghost use Rattle.std.specs.Prelude.{IfOk};
    ghost use Rattle.rasn_de.specs.Beyond.{BeyondInside};
    ghost use Rattle.rasn_de.specs.Constructed.{sequence_header};
    ghost use Rattle.rasn_de.specs.SetPartTypes.{BeyondSet};

    ghost beyond = { λ tag old result _. IfOk result (λ a. BeyondInside (BeyondSet ⟦<Parts as DecodeSetParts>⟧.extensible ⟦<Parts as DecodeSetParts>⟧.parts ⟦<Parts as DecodeSetParts>⟧.beyond) (sequence_header tag) old (@tree@)) };

";

/// What the value of a type with a constraint keeps.
const OF_CONSTRAINED: &str = "    ghost use Rattle.std.specs.Prelude.{IfOk};
    ghost use Rattle.rasn_de.specs.Beyond.{got};

    ghost beyond = { λ tag old result new. IfOk result (λ a. got (⟦<@inner@ as Decode>⟧.beyond tag) old a.value new) };

";

/// Which errors there are of a SEQUENCE: those of its parts, or of what is around them.
const ERRORS_OF_SEQUENCE: &str =
    "    ghost use Rattle.rasn_de.specs.PartTypes.{DecodesSequenceParts};
    ghost use Rattle.rasn_de.specs.ValueErrors.{errors_of};

    ghost errors = { λ tag _. errors_of (DecodesSequenceParts ⟦<Parts as DecodeParts>⟧.parts ⟦<Parts as DecodeParts>⟧.tree ⟦<Parts as DecodeParts>⟧.errors tag) };

";

/// Which errors there are of a SET: they have its name and those of its parts, or are the parts'.
const ERRORS_OF_SET: &str = "    ghost use Rattle.std.specs.Prelude.{[], ◌∷◌, codes};
    ghost use Rattle.rasn_de.specs.SetPartTypes.{DecodesNamedParts};
    ghost use Rattle.rasn_de.specs.ValueErrors.{errors_of};

    ghost errors = { λ tag _. errors_of (DecodesNamedParts ⟦<Parts as DecodeSetParts>⟧.extensible ⟦<Parts as DecodeSetParts>⟧.parts ⟦<Parts as DecodeSetParts>⟧.tree (codes \"@Name@\") (@part_names@) ⟦<Parts as DecodeSetParts>⟧.errors tag) };

";

/// Which errors there are of a type with a constraint: those of the type without it.
pub(crate) const ERRORS_OF_CONSTRAINED: &str = "    ghost errors = { ⟦<@inner@ as Decode>⟧.errors };

";

/// Which errors there are of a CHOICE: they have its name, or are those of the alternative.
pub(crate) const ERRORS_OF_CHOICE: &str = "    ghost use Rattle.std.specs.Prelude.{codes};
    ghost use Rattle.rasn_de.specs.AlternativeTypes.{DecodesAlternativeBy};
    ghost use Rattle.rasn_de.specs.ValueErrors.{errors_of, IsErrorByTag};
@beyond@
    ghost errors = { λ _ _ old e new. errors_of (DecodesAlternativeBy ⟦<Alternatives as DecodeAlternatives>⟧.extensible ⟦<Alternatives as DecodeAlternatives>⟧.parts ⟦<Alternatives as DecodeAlternatives>⟧.inner (codes \"@Name@\")) old e new × IsErrorByTag ⟦<Alternatives as DecodeAlternatives>⟧.errors old e new };
";

/// What the value of a CHOICE keeps.
const OF_CHOICE: &str = "    ghost use Rattle.std.specs.Prelude.{IfOk};
    ghost use Rattle.rasn_de.specs.Beyond.{got};
    ghost use Rattle.@crate@.specs.declared.@file@.@Name@.TheVariants.{@names@};

    ghost beyond = { λ _ old result new. IfOk result (elim [ @kept@ ]) };
";

impl Plan<'_> {
    /// Finds the types whose values hold a GeneralizedTime, until no more are found.
    pub(crate) fn find_timed(&mut self) -> Result<(), AllocError> {
        for _ in 0..self.schema.types().len() {
            let count = self.timed.len();
            self.find_more_timed()?;
            if self.timed.len() == count {
                break;
            }
        }
        Ok(())
    }

    /// Finds the types that are made of those that were found.
    fn find_more_timed(&mut self) -> Result<(), AllocError> {
        for id in 0..self.schema.types().len() {
            if !self.timed.contains(&id) && self.is_timed(id)? {
                self.timed.insert(id)?;
            }
        }
        Ok(())
    }

    /// Returns whether a type is a GeneralizedTime, or was found to be made of one.
    fn is_timed(&self, id: usize) -> Result<bool, AllocError> {
        if let Type::Leaf {
            kind: LeafKind::GeneralizedTime,
            ..
        } = self.type_of(id)
        {
            return Ok(true);
        }
        if self.reason_against(id)?.is_some() {
            return Ok(false);
        }
        let members = self.placed_members_of(id)?;
        for member in &members {
            if self.holds_time(id, member.type_id.0)? {
                return Ok(true);
            }
        }
        Ok(false)
    }

    /// Returns whether the values of a part hold a GeneralizedTime. One that leads back to the type
    /// `of` is an open type.
    pub(crate) fn holds_time(&self, of: usize, part: usize) -> Result<bool, AllocError> {
        Ok(self.timed.contains(&self.twin_or_self(part)) && !self.leads_to(part, of)?)
    }

    /// Returns what the value of a SEQUENCE or a SET keeps, whose fields are these.
    pub(crate) fn beyond_of_struct(
        &self,
        id: usize,
        is_set: bool,
        tree: &str,
    ) -> Result<String, AllocError> {
        if !self.timed.contains(&id) {
            return Ok(String::new(self.alloc));
        }
        let mut values = Values::new(self.alloc);
        values.add_str("tree", tree);
        values.filled(if is_set { OF_SET } else { OF_SEQUENCE })
    }

    /// Returns which errors there are of a SEQUENCE or a SET, whose components have these names.
    pub(crate) fn errors_of_struct(
        &self,
        id: usize,
        is_set: bool,
        part_names: Result<String, AllocError>,
    ) -> Result<String, AllocError> {
        let mut values = self.values_of(id)?;
        values.add("part_names", part_names);
        values.filled(if is_set {
            ERRORS_OF_SET
        } else {
            ERRORS_OF_SEQUENCE
        })
    }

    /// Returns what the value of a CHOICE with these alternatives keeps.
    pub(crate) fn beyond_of_choice(
        &self,
        id: usize,
        branches: &[Branch<'_>],
    ) -> Result<String, AllocError> {
        if !self.timed.contains(&id) {
            return Ok(String::new(self.alloc));
        }
        let mut values = self.values_of(id)?;
        values.add("names", names_text(self.alloc, branches));
        values.add("kept", self.kept_text(branches));
        values.filled(OF_CHOICE)
    }

    /// Adds what the value of an alternative keeps.
    pub(crate) fn push_kept(
        &self,
        text: &mut String,
        variant: &str,
        ty: &str,
        holds_time: bool,
    ) -> Result<(), AllocError> {
        push_separator(text, " | ")?;
        if !holds_time {
            return write!(text, "{variant} x ↦ Unit {{0}}");
        }
        write!(text, "{variant} x ↦ got (⟦<{ty} as Decode>⟧.beyond ")?;
        write!(text, "⟦<{ty} as AsnType>⟧.TAG) old x new")
    }

    /// Returns what the value of a type with a constraint keeps.
    pub(crate) fn beyond_of_constrained(
        &self,
        id: usize,
        inner: &str,
    ) -> Result<String, AllocError> {
        if !self.timed.contains(&id) {
            return Ok(String::new(self.alloc));
        }
        let mut values = Values::new(self.alloc);
        values.add_str("inner", inner);
        values.filled(OF_CONSTRAINED)
    }
}
