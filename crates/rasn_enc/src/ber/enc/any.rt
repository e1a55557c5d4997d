//! Writing open types.
ghost use Rattle.std.specs.Prelude.{◌≡◌, None, [], IfErr, OnOk, OnErr};
ghost use Rattle.rasn_types.specs.Shapes.{any, looked_for, numbers};
ghost use Rattle.rasn_types.specs.Bytes.{ConstructedEncoding};
ghost use Rattle.rasn_enc.specs.View.{appended};
ghost use Rattle.rasn_enc.specs.Primitive.{Appends, IsAllocError};
ghost use Rattle.rasn_enc.specs.Encoding.{AppendsEncoding};
ghost use Rattle.rasn_enc.specs.Any.{IsUntaggedInSetError, FailsAtUntagged, FailsAtAny};

use crate::ber::enc::Encoder;
use crate::enc::Encode;
use rasn_types::error::{BerEncodeErrorKind, CodecEncodeError, EncodeError, EncodeErrorKind};
use rasn_types::types::{Any, Codec, Constraints, Identifier, Tag};

impl Encoder {
    /// Writes a value of an open type (X.681 14). With a tag, the octets are the contents of a
    /// constructed value of this tag (X.690 8.14.2); with `Tag::EOC`, they are written alone
    /// (8.15). A value without octets is written as nothing.
    ///
    /// # Errors
    /// `AnyInSet` if octets without a tag would be written directly in a SET, or in the output of
    /// an encoder that `new_set` made: their order isn't known (X.690 9.3, 10.3). Otherwise only
    /// `OutOfMemory`. On error, nothing is written.
    pub fn encode_any(
        &mut self,
        tag: Tag,
        value: &Any,
        _identifier: Identifier,
    ) -> Result<(), EncodeError>
        ensures ok { OnOk result (AppendsEncoding (any (looked_for tag)) (numbers value.now) self.old self.new) }
        ensures err { OnErr result (self.new ≡ self.old) }
        ensures fails { IfErr result (FailsAtAny tag value.now self.old) }
        ensures rules { IfErr result (λ e. e.codec ≡ self.old.rule) }
    {
        self.encode_open(tag, value.as_bytes())
    }

    /// Writes the octets of a value of an open type, as `encode_any` does (X.681 14, X.690 8.15).
    ///
    /// # Errors
    /// Those of `encode_any`.
    pub fn encode_open(&mut self, tag: Tag, octets: &[u8]) -> Result<(), EncodeError>
        ensures ok { OnOk result (AppendsEncoding (any (looked_for tag)) (numbers octets.now) self.old self.new) }
        ensures err { OnErr result (self.new ≡ self.old) }
        ensures fails { IfErr result (FailsAtAny tag octets.now self.old) }
    {
        if octets.is_empty() {
            return Ok(());
        }
        if tag == Tag::EOC {
            self.append_untagged(octets)
        } else {
            self.append_tagged(tag, octets)
        }
    }

    /// Appends octets to the last list, unless that list keeps tags.
    fn append_untagged(&mut self, octets: &[u8]) -> Result<(), EncodeError>
        ensures ok { OnOk result (self.new ≡ appended self.old octets.now []) }
        ensures free { OnOk result (self.old.last.tags ≡ None) }
        ensures err { OnErr result (self.new ≡ self.old) }
        ensures fails { IfErr result (FailsAtUntagged self.old) }
    {
        if self.keeps_tags() {
            return Err(any_in_set(self.codec()));
        }
        self.append_encoded(octets)
    }

    /// Writes a constructed value of this tag with these contents octets.
    fn append_tagged(&mut self, tag: Tag, octets: &[u8]) -> Result<(), EncodeError>
        ensures ok { OnOk result (Appends (ConstructedEncoding self.old.rule tag octets.now) tag self.old self.new) }
        ensures err { OnErr result (self.new ≡ self.old) }
        ensures memory_alone { IfErr result (IsAllocError self.old.rule) }
    {
        self.open(false)?;
        let outcome = self.append_encoded(octets);
        self.close(tag, outcome)
    }
}

pub(super) fn any_in_set(codec: Codec) -> EncodeError
    ensures { IsUntaggedInSetError codec result }
{
    EncodeError {
        kind: EncodeErrorKind::CodecSpecific {
            inner: CodecEncodeError::Ber(BerEncodeErrorKind::AnyInSet),
        },
        codec,
    }
}

impl Encode for Any {
    ghost use Rattle.std.specs.Prelude.{◌⊎◌};
    ghost use Rattle.rasn_enc.specs.Primitive.{IsAllocError};
    ghost use Rattle.rasn_enc.specs.Any.{IsUntaggedInSetError};

    ghost errors = { λ tag c v rule e. IsUntaggedInSetError rule e ⊎ IsAllocError rule e };

    fn encode_with_tag_and_constraints(
        &self,
        encoder: &mut Encoder,
        tag: Tag,
        _constraints: &Constraints,
        identifier: Identifier,
    ) -> Result<(), EncodeError> {
        encoder.encode_any(tag, self, identifier)
    }

    fn is_present(&self) -> bool {
        true
    }
}
