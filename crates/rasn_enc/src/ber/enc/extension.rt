//! Writing extension additions (X.680 25.4).
ghost use Rattle.std.specs.Prelude.{◌≡◌, IfErr, IsOk, OnOk, OnErr};
ghost use Rattle.rasn_types.specs.Shapes.{tagged_as, looked_for, option, absent};
ghost use Rattle.rasn_enc.specs.Extension.{group_tree};
ghost use Rattle.rasn_enc.specs.ValueErrors.{IsErrorOfOption};
ghost use Rattle.rasn_enc.specs.Encoding.{AppendsEncoding, EncodeFails};

use crate::ber::enc::Encoder;
use crate::enc::Encode;
use rasn_types::error::EncodeError;
use rasn_types::types::{Constraints, Constructed, Identifier, Tag};

impl Encoder {
    /// Writes an extension addition under this tag and these constraints.
    ///
    /// It takes ownership of the value. A borrowed value that can't be copied is written by its own
    /// `encode_with_tag_and_constraints`, which does the same under the same contract.
    ///
    /// # Errors
    /// The error of the value. On error, nothing is written.
    pub fn encode_extension_addition<E: Encode>(
        &mut self,
        tag: Tag,
        constraints: &Constraints,
        value: E,
        identifier: Identifier,
    ) -> Result<(), EncodeError>
        ensures ok { OnOk result (AppendsEncoding (tagged_as tag constraints.now E.shape) (E.tree value) self.old self.new) }
        ensures err { OnErr result (self.new ≡ self.old) }
        ensures refused { IfErr result (EncodeFails (tagged_as tag constraints.now E.shape) (E.tree value) self.old) }
        ensures errors { IfErr result (E.errors tag constraints.now value self.old.rule) }
        ensures rules { IfErr result (λ e. e.codec ≡ self.old.rule) }
    {
        value.encode_with_tag_and_constraints(self, tag, constraints, identifier)
    }

    /// Writes an extension addition group as a SEQUENCE of its own, as the crate `rasn` has it, or
    /// nothing if there is no group. The name is ignored.
    ///
    /// By X.680 25 the components of a group `[[ ]]` are components of the SEQUENCE itself, and the
    /// brackets have no octets. To write these, write each component as an optional one.
    ///
    /// # Errors
    /// The error of the value; none if there is no group. On error, nothing is written.
    pub fn encode_extension_addition_group<
        const RC: usize,
        const EC: usize,
        E: Encode + Constructed<RC, EC>,
    >(&mut self, value: Option<&E>, _identifier: Identifier) -> Result<(), EncodeError>
        ensures ok { OnOk result (AppendsEncoding (option (looked_for E.TAG) E.shape) (group_tree E.tree value.entry) self.old self.new) }
        ensures err { OnErr result (self.new ≡ self.old) }
        ensures accepts { group_tree E.tree value.entry ≡ absent → IsOk result }
        ensures refused { IfErr result (EncodeFails (option (looked_for E.TAG) E.shape) (group_tree E.tree value.entry) self.old) }
        ensures errors { IfErr result (IsErrorOfOption (λ v. E.errors E.TAG E.CONSTRAINTS v.now self.old.rule) value.entry) }
        ensures rules { IfErr result (λ e. e.codec ≡ self.old.rule) }
    {
        match value {
            Some(value) if value.is_present() => value.encode(self),
            _ => Ok(()),
        }
    }
}
