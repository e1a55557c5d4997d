//! Writing SEQUENCE OF (X.690 8.10).
ghost use Rattle.std.specs.Prelude.{◌≡◌, ◌⊎◌, length, None, map, IfErr, OnOk, OnErr};
ghost use Rattle.rasn_types.specs.Shapes.{list};
ghost use Rattle.rasn_types.specs.Trees.{list_tree};
ghost use Rattle.rasn_enc.specs.View.{LeavesOthers};
ghost use Rattle.rasn_enc.specs.SequenceOf.{AppendsElements, FailsAtElement, FailsAtList};
ghost use Rattle.rasn_enc.specs.Errors.{FailsAtSize};
ghost use Rattle.rasn_enc.specs.ValueErrors.{IsAllocErrorOr, IsErrorOfElement};
ghost use Rattle.rasn_enc.specs.Encoding.{AppendsEncoding, EncodeFails};

use crate::ber::enc::Encoder;
use crate::enc::Encode;
use rasn_types::error::EncodeError;
use rasn_types::types::{Constraints, Identifier, Tag};

impl Encoder {
    /// Writes a SEQUENCE OF (X.690 8.10), whose size in elements is constrained.
    ///
    /// # Errors
    /// `SizeConstraintNotSatisfied` if the number of elements is out of bounds; the error of an
    /// element; otherwise only `OutOfMemory`. On error, nothing is written.
    #[inline(always)]
    pub fn encode_sequence_of<E: Encode>(
        &mut self,
        tag: Tag,
        values: &[E],
        constraints: &Constraints,
        _identifier: Identifier,
    ) -> Result<(), EncodeError>
        ensures ok { OnOk result (AppendsEncoding (list tag E.shape constraints.now.size) (list_tree E.tree values.now) self.old self.new) }
        ensures err { OnErr result (self.new ≡ self.old) }
        ensures refused { IfErr result (EncodeFails (list tag E.shape constraints.now.size) (list_tree E.tree values.now) self.old) }
        ensures named { IfErr result (FailsAtList E.shape (map E.tree values.now) (length values.now) constraints.now self.old.rule) }
        ensures errors { IfErr result (λ e. FailsAtSize constraints.now (length values.now) self.old.rule e ⊎ IsAllocErrorOr self.old.rule (IsErrorOfElement E.shape E.tree (λ v. E.errors E.TAG E.CONSTRAINTS v self.old.rule) values.now self.old.rule) e) }
        ensures rules { IfErr result (λ e. e.codec ≡ self.old.rule) }
    {
        self.check_size(constraints, values.len())?;
        self.enclose(tag, false, |encoder: &mut Encoder| {
            encoder.append_elements(values)
        })
    }

    #[inline(always)]
    fn append_elements<E: Encode>(&mut self, values: &[E]) -> Result<(), EncodeError>
        requires { self.old.last.tags ≡ None }
        ensures keeps { LeavesOthers self.old self.new }
        ensures ok { OnOk result (AppendsElements E.shape (map E.tree values.now) self.old self.new) }
        ensures refused { IfErr result (FailsAtElement E.shape (map E.tree values.now) self.old.rule) }
        ensures errors { IfErr result (IsErrorOfElement E.shape E.tree (λ v. E.errors E.TAG E.CONSTRAINTS v self.old.rule) values.now self.old.rule) }
        ensures rules { IfErr result (λ e. e.codec ≡ self.old.rule) }
    {
        let mut rest = values;
        while let [value, after @ ..] = rest {
            value.encode(self)?;
            rest = after;
        }
        Ok(())
    }
}

impl<T: Encode> Encode for Vec<T> {
    ghost use Rattle.std.specs.Prelude.{◌⊎◌, length};
    ghost use Rattle.rasn_enc.specs.Errors.{FailsAtSize};
    ghost use Rattle.rasn_enc.specs.ValueErrors.{IsAllocErrorOr, IsErrorOfElement};

    ghost errors = { λ tag c v rule e. FailsAtSize c (length v.items) rule e ⊎ IsAllocErrorOr rule (IsErrorOfElement T.shape T.tree (λ d. T.errors T.TAG T.CONSTRAINTS d rule) v.items rule) e };

    #[inline(always)]
    fn encode_with_tag_and_constraints(
        &self,
        encoder: &mut Encoder,
        tag: Tag,
        constraints: &Constraints,
        identifier: Identifier,
    ) -> Result<(), EncodeError> {
        encoder.encode_sequence_of::<T>(tag, self.as_slice(), constraints, identifier)
    }

    fn is_present(&self) -> bool {
        true
    }
}
