//! Writing SET OF (X.690 8.12).
ghost use Rattle.std.specs.Prelude.{◌≡◌, ◌⊎◌, length, None, map, IfErr, OnOk, OnErr};
ghost use Rattle.rasn_types.specs.Shapes.{set_of, set_elements};
ghost use Rattle.rasn_types.specs.Trees.{list_tree};
ghost use Rattle.rasn_enc.specs.View.{LeavesOthers};
ghost use Rattle.rasn_enc.specs.SequenceOf.{AppendsSetOf, FailsAtElements, FailsAtSetOf};
ghost use Rattle.rasn_enc.specs.Errors.{FailsAtSize};
ghost use Rattle.rasn_enc.specs.Primitive.{IsOrderError};
ghost use Rattle.rasn_enc.specs.ValueErrors.{IsAllocErrorOr, IsErrorOfElement};
ghost use Rattle.rasn_enc.specs.Encoding.{AppendsEncoding, EncodeFails};

use crate::ber::enc::{Encoder, out_of_order};
use crate::enc::Encode;
use rasn_types::error::EncodeError;
use rasn_types::types::{Constraints, Identifier, SetOf, Tag};

impl Encoder {
    /// Writes a SET OF (X.690 8.12), whose size in elements is constrained, with its elements in
    /// their order. Under all rules the octets of an element must not be less than those of the one
    /// before it (X.690 11.6).
    ///
    /// # Errors
    /// `SizeConstraintNotSatisfied` if the number of elements is out of bounds; the error of an
    /// element; `SetOutOfOrder` at the first element whose octets are less than those of the one
    /// before it; otherwise only `OutOfMemory`. On error, nothing is written.
    pub fn encode_set_of<E: Encode + Eq>(
        &mut self,
        tag: Tag,
        values: &SetOf<E>,
        constraints: &Constraints,
        _identifier: Identifier,
    ) -> Result<(), EncodeError>
        ensures ok { let tree = set_elements (list_tree E.tree values.now) in
            OnOk result (AppendsEncoding (set_of tag E.shape constraints.now.size) tree self.old self.new) }
        ensures err { OnErr result (self.new ≡ self.old) }
        ensures refused { let tree = set_elements (list_tree E.tree values.now) in
            IfErr result (EncodeFails (set_of tag E.shape constraints.now.size) tree self.old) }
        ensures named { let trees = map E.tree values.now in
            IfErr result (FailsAtSetOf E.shape trees (length values.now) constraints.now self.old.rule) }
        ensures errors { IfErr result (λ e. FailsAtSize constraints.now (length values.now) self.old.rule e ⊎ IsAllocErrorOr self.old.rule (λ x. IsOrderError self.old.rule x ⊎ IsErrorOfElement E.shape E.tree (λ v. E.errors E.TAG E.CONSTRAINTS v self.old.rule) values.now self.old.rule x) e) }
        ensures rules { IfErr result (λ e. e.codec ≡ self.old.rule) }
    {
        self.check_size(constraints, values.len())?;
        let elements = values.as_slice();
        self.enclose(tag, false, |encoder: &mut Encoder| {
            encoder.append_in_order(elements)
        })
    }

    /// Writes elements, and fails if their octets aren't in ascending order.
    fn append_in_order<E: Encode>(&mut self, values: &[E]) -> Result<(), EncodeError>
        requires { self.old.last.tags ≡ None }
        ensures keeps { LeavesOthers self.old self.new }
        ensures ok { OnOk result (AppendsSetOf E.shape (map E.tree values.now) self.old self.new) }
        ensures refused { IfErr result (FailsAtElements E.shape (map E.tree values.now) self.old.rule) }
        ensures errors { IfErr result (λ e. IsOrderError self.old.rule e ⊎ IsErrorOfElement E.shape E.tree (λ v. E.errors E.TAG E.CONSTRAINTS v self.old.rule) values.now self.old.rule e) }
        ensures rules { IfErr result (λ e. e.codec ≡ self.old.rule) }
    {
        let mut previous = self.last_len();
        let mut rest = values;
        while let [value, after @ ..] = rest {
            let start = self.last_len();
            value.encode(self)?;
            if self.neighbours_out_of_order(previous, start) {
                return Err(out_of_order(self.codec()));
            }
            previous = start;
            rest = after;
        }
        Ok(())
    }
}

impl<T: Encode + Eq> Encode for SetOf<T> {
    ghost use Rattle.std.specs.Prelude.{◌⊎◌, length};
    ghost use Rattle.rasn_enc.specs.Errors.{FailsAtSize};
    ghost use Rattle.rasn_enc.specs.Primitive.{IsOrderError};
    ghost use Rattle.rasn_enc.specs.ValueErrors.{IsAllocErrorOr, IsErrorOfElement};

    ghost errors = { λ tag c v rule e. FailsAtSize c (length v) rule e ⊎ IsAllocErrorOr rule (λ x. IsOrderError rule x ⊎ IsErrorOfElement T.shape T.tree (λ d. T.errors T.TAG T.CONSTRAINTS d rule) v rule x) e };

    fn encode_with_tag_and_constraints(
        &self,
        encoder: &mut Encoder,
        tag: Tag,
        constraints: &Constraints,
        identifier: Identifier,
    ) -> Result<(), EncodeError> {
        encoder.encode_set_of::<T>(tag, self, constraints, identifier)
    }

    fn is_present(&self) -> bool {
        true
    }
}
