//! Writing values that the type of an extensible SEQUENCE doesn't name (X.680 25).
ghost use Rattle.std.specs.Prelude.{◌≡◌, [], IfErr, OnOk, OnErr};
ghost use Rattle.rasn_types.specs.Contents.{joined_lists};
ghost use Rattle.rasn_types.specs.Shapes.{numbers, unknown};
ghost use Rattle.rasn_types.specs.Trees.{list_tree};
ghost use Rattle.rasn_enc.specs.View.{Extends, appended};
ghost use Rattle.rasn_enc.specs.Primitive.{IsAllocError};
ghost use Rattle.rasn_enc.specs.Encoding.{AppendsEncoding};
ghost use Rattle.rasn_enc.specs.Unknown.{have_octets, FailsAtUnknown};

use crate::ber::enc::Encoder;
use crate::ber::enc::any::any_in_set;
use crate::enc::Encode;
use rasn_types::error::EncodeError;
use rasn_types::types::{Any, Constraints, Identifier, Tag, Unknown};

impl Encoder {
    /// Writes the octets of the values, one value after the other (X.680 25).
    ///
    /// # Errors
    /// `AnyInSet` if octets would be written directly in a SET, or in the output of an encoder that
    /// `new_set` made: their order isn't known (X.690 9.3, 10.3). Otherwise only `OutOfMemory`;
    /// none if there are no octets. On error, nothing is written.
    pub fn encode_unknown(&mut self, values: &Unknown) -> Result<(), EncodeError>
        ensures ok { OnOk result (AppendsEncoding unknown (list_tree numbers values.now.values.items) self.old self.new) }
        ensures err { OnErr result (self.new ≡ self.old) }
        ensures fails { IfErr result (FailsAtUnknown values.now.values.items self.old) }
        ensures rules { IfErr result (λ e. e.codec ≡ self.old.rule) }
    {
        let values: &[Any] = &values.values;
        if !some_have_octets(values) {
            return Ok(());
        }
        if self.keeps_tags() {
            return Err(any_in_set(self.codec()));
        }
        let end = self.end();
        match self.append_values(values) {
            Ok(()) => Ok(()),
            Err(error) => {
                self.cut_back(end);
                Err(error)
            }
        }
    }

    /// Appends the octets of the values to the last list.
    fn append_values(&mut self, values: &[Any]) -> Result<(), EncodeError>
        ensures ok { OnOk result (self.new ≡ appended self.old (joined_lists values.now) []) }
        ensures extends { Extends self.old self.new }
        ensures memory_alone { IfErr result (IsAllocError self.old.rule) }
    {
        let mut rest = values;
        while let [value, after @ ..] = rest {
            self.append_encoded(value.as_bytes())?;
            rest = after;
        }
        Ok(())
    }
}

/// Returns whether some of the values have octets.
fn some_have_octets(values: &[Any]) -> bool
    ensures { result ≡ have_octets values.now }
{
    values.iter().any(|value| !value.as_bytes().is_empty())
}

impl Encode for Unknown {
    ghost use Rattle.std.specs.Prelude.{◌⊎◌};
    ghost use Rattle.rasn_enc.specs.Primitive.{IsAllocError};
    ghost use Rattle.rasn_enc.specs.Any.{IsUntaggedInSetError};

    ghost errors = { λ tag c v rule e. IsUntaggedInSetError rule e ⊎ IsAllocError rule e };

    fn encode_with_tag_and_constraints(
        &self,
        encoder: &mut Encoder,
        _tag: Tag,
        _constraints: &Constraints,
        _identifier: Identifier,
    ) -> Result<(), EncodeError> {
        encoder.encode_unknown(self)
    }

    fn is_present(&self) -> bool {
        true
    }
}
