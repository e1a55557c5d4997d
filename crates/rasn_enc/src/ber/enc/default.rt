//! Writing values that are left out if they equal their default (X.680 25.8).
ghost use Rattle.std.specs.Prelude.{◌≡◌, IfErr, OnOk, OnErr};
ghost use Rattle.rasn_types.specs.Shapes.{tagged_as, prefix};
ghost use Rattle.rasn_enc.specs.ValueErrors.{IsAllocErrorOr};
ghost use Rattle.rasn_enc.specs.Default.{AppendsUnlessDefault, FailsUnlessDefault, EncodesDefault};

use crate::ber::enc::{Encoder, out_of_memory};
use crate::enc::Encode;
use rasn_types::error::EncodeError;
use rasn_types::types::{Constraints, Identifier, LawfulEq, Tag};
use std::alloc::AllocError;

impl Encoder {
    /// Writes a value under its own tag, or nothing if it equals its default (X.690 11.5).
    ///
    /// # Errors
    /// The error of the value; `OutOfMemory` if making the default fails to allocate. On error,
    /// nothing is written.
    pub fn encode_default<E: Encode + LawfulEq, F: FnOnce() -> Result<E, AllocError>>(
        &mut self,
        value: &E,
        default: F,
        identifier: Identifier,
    ) -> Result<(), EncodeError>
        requires { F.IsAlwaysCallable default }
        ensures ok { OnOk result (AppendsUnlessDefault E.eq (F.post default) E.shape E.tree value.now self.old self.new) }
        ensures err { OnErr result (self.new ≡ self.old) }
        ensures refused { IfErr result (FailsUnlessDefault E.eq (F.post default) E.shape E.tree value.now self.old) }
        ensures writes { EncodesDefault E.eq (F.post default) E.shape E.tree value.now self.old result self.new }
        ensures errors { IfErr result (IsAllocErrorOr self.old.rule (E.errors E.TAG E.CONSTRAINTS value.now self.old.rule)) }
        ensures rules { IfErr result (λ e. e.codec ≡ self.old.rule) }
    {
        self.encode_default_with_tag_and_constraints(
            E::TAG,
            &E::CONSTRAINTS,
            value,
            default,
            identifier,
        )
    }

    /// Writes a value under this tag, or nothing if it equals its default (X.690 11.5).
    ///
    /// # Errors
    /// Those of `encode_default`.
    pub fn encode_default_with_tag<E: Encode + LawfulEq, F: FnOnce() -> Result<E, AllocError>>(
        &mut self,
        tag: Tag,
        value: &E,
        default: F,
        identifier: Identifier,
    ) -> Result<(), EncodeError>
        requires { F.IsAlwaysCallable default }
        ensures ok { let shape = tagged_as tag E.CONSTRAINTS E.shape in
            OnOk result (AppendsUnlessDefault E.eq (F.post default) shape E.tree value.now self.old self.new) }
        ensures err { OnErr result (self.new ≡ self.old) }
        ensures refused { let shape = tagged_as tag E.CONSTRAINTS E.shape in
            IfErr result (FailsUnlessDefault E.eq (F.post default) shape E.tree value.now self.old) }
        ensures writes { let shape = tagged_as tag E.CONSTRAINTS E.shape in
            EncodesDefault E.eq (F.post default) shape E.tree value.now self.old result self.new }
        ensures errors { IfErr result (IsAllocErrorOr self.old.rule (E.errors tag E.CONSTRAINTS value.now self.old.rule)) }
        ensures rules { IfErr result (λ e. e.codec ≡ self.old.rule) }
    {
        self.encode_default_with_tag_and_constraints(
            tag,
            &E::CONSTRAINTS,
            value,
            default,
            identifier,
        )
    }

    /// Writes a value under its own tag and these constraints, or nothing if it equals its default
    /// (X.690 11.5).
    ///
    /// # Errors
    /// Those of `encode_default`.
    pub fn encode_default_with_constraints<
        E: Encode + LawfulEq,
        F: FnOnce() -> Result<E, AllocError>,
    >(
        &mut self,
        constraints: &Constraints,
        value: &E,
        default: F,
        identifier: Identifier,
    ) -> Result<(), EncodeError>
        requires { F.IsAlwaysCallable default }
        ensures ok { let shape = tagged_as E.TAG constraints.now E.shape in
            OnOk result (AppendsUnlessDefault E.eq (F.post default) shape E.tree value.now self.old self.new) }
        ensures err { OnErr result (self.new ≡ self.old) }
        ensures refused { let shape = tagged_as E.TAG constraints.now E.shape in
            IfErr result (FailsUnlessDefault E.eq (F.post default) shape E.tree value.now self.old) }
        ensures writes { let shape = tagged_as E.TAG constraints.now E.shape in
            EncodesDefault E.eq (F.post default) shape E.tree value.now self.old result self.new }
        ensures errors { IfErr result (IsAllocErrorOr self.old.rule (E.errors E.TAG constraints.now value.now self.old.rule)) }
        ensures rules { IfErr result (λ e. e.codec ≡ self.old.rule) }
    {
        self.encode_default_with_tag_and_constraints(
            E::TAG,
            constraints,
            value,
            default,
            identifier,
        )
    }

    /// Writes a value under this tag and these constraints, or nothing if it equals its default
    /// (X.690 11.5).
    ///
    /// # Errors
    /// Those of `encode_default`.
    pub fn encode_default_with_tag_and_constraints<
        E: Encode + LawfulEq,
        F: FnOnce() -> Result<E, AllocError>,
    >(
        &mut self,
        tag: Tag,
        constraints: &Constraints,
        value: &E,
        default: F,
        identifier: Identifier,
    ) -> Result<(), EncodeError>
        requires { F.IsAlwaysCallable default }
        ensures ok { let shape = tagged_as tag constraints.now E.shape in
            OnOk result (AppendsUnlessDefault E.eq (F.post default) shape E.tree value.now self.old self.new) }
        ensures err { OnErr result (self.new ≡ self.old) }
        ensures refused { let shape = tagged_as tag constraints.now E.shape in
            IfErr result (FailsUnlessDefault E.eq (F.post default) shape E.tree value.now self.old) }
        ensures writes { let shape = tagged_as tag constraints.now E.shape in
            EncodesDefault E.eq (F.post default) shape E.tree value.now self.old result self.new }
        ensures errors { IfErr result (IsAllocErrorOr self.old.rule (E.errors tag constraints.now value.now self.old.rule)) }
        ensures rules { IfErr result (λ e. e.codec ≡ self.old.rule) }
    {
        match default() {
            Ok(default) if *value == default => Ok(()),
            Ok(_) => value.encode_with_tag_and_constraints(self, tag, constraints, identifier),
            Err(AllocError) => Err(out_of_memory(self.codec())),
        }
    }
    /// Writes a value under this explicit tag, which precedes its own (X.690 8.14.2), or nothing if
    /// it equals its default (X.690 11.5).
    ///
    /// # Errors
    /// Those of `encode_default`.
    pub fn encode_default_with_explicit_prefix<
        E: Encode + LawfulEq,
        F: FnOnce() -> Result<E, AllocError>,
    >(
        &mut self,
        tag: Tag,
        value: &E,
        default: F,
        _identifier: Identifier,
    ) -> Result<(), EncodeError>
        requires { F.IsAlwaysCallable default }
        ensures ok { OnOk result (AppendsUnlessDefault E.eq (F.post default) (prefix tag E.shape) E.tree value.now self.old self.new) }
        ensures err { OnErr result (self.new ≡ self.old) }
        ensures refused { IfErr result (FailsUnlessDefault E.eq (F.post default) (prefix tag E.shape) E.tree value.now self.old) }
        ensures writes { EncodesDefault E.eq (F.post default) (prefix tag E.shape) E.tree value.now self.old result self.new }
        ensures errors { IfErr result (IsAllocErrorOr self.old.rule (E.errors E.TAG E.CONSTRAINTS value.now self.old.rule)) }
        ensures rules { IfErr result (λ e. e.codec ≡ self.old.rule) }
    {
        match default() {
            Ok(left_out) if *value == left_out => Ok(()),
            Ok(_) => self.append_prefixed(tag, value),
            Err(_) => Err(out_of_memory(self.codec())),
        }
    }
}
