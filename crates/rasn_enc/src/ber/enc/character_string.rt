//! Writing character strings (X.690 8.23).
ghost use Rattle.std.specs.Prelude.{◌≡◌, chars, length, IfErr, OnOk, OnErr};
ghost use Rattle.rasn_types.specs.CharacterString.{string_kind, units_of};
ghost use Rattle.rasn_types.specs.Shapes.{leaf, numbers, numeric, printable, visible, ia5, any_octets, bmp, utf8};
ghost use Rattle.rasn_enc.specs.Errors.{FailsAtString};
ghost use Rattle.rasn_enc.specs.CharacterString.{IsCounted};
ghost use Rattle.rasn_enc.specs.Encoding.{AppendsEncoding};

use crate::ber::enc::Encoder;
use crate::enc::Encode;
use rasn_types::error::EncodeError;
use rasn_types::types::{
    BmpString, Constraints, GeneralString, GeneralType, GraphicString, GraphicType, Ia5String,
    Ia5Type, Identifier, NumericString, NumericType, PrintableString, PrintableType,
    RestrictedString, StringType, Tag, TeletexString, TeletexType, VisibleString, VisibleType,
};

/// Returns the number of characters in a text, or 0 if the number has no bound.
fn character_count(constraints: &Constraints, text: &str) -> usize
    ensures { IsCounted constraints.now result (length (chars text.now)) }
{
    match constraints.size {
        None => 0,
        Some(_) => text.chars().count(),
    }
}

impl Encoder {
    /// Writes a VisibleString (X.690 8.23). The canonical rules write more than 1000 octets in
    /// segments (9.2).
    ///
    /// # Errors
    /// `SizeConstraintNotSatisfied` if the number of octets is out of bounds, otherwise only
    /// `OutOfMemory`.
    pub fn encode_visible_string(
        &mut self,
        tag: Tag,
        constraints: &Constraints,
        value: &VisibleString,
        _identifier: Identifier,
    ) -> Result<(), EncodeError>
        ensures ok { OnOk result (AppendsEncoding (leaf visible tag constraints.now) (numbers value.now) self.old self.new) }
        ensures err { OnErr result (self.new ≡ self.old) }
        ensures fails { IfErr result (FailsAtString constraints.now (length value.now) self.old.rule) }
        ensures rules { IfErr result (λ e. e.codec ≡ self.old.rule) }
    {
        self.restricted::<VisibleType>(tag, constraints, value)
    }

    /// Writes an IA5String (X.690 8.23). The canonical rules write more than 1000 octets in
    /// segments (9.2).
    ///
    /// # Errors
    /// `SizeConstraintNotSatisfied` if the number of octets is out of bounds, otherwise only
    /// `OutOfMemory`.
    pub fn encode_ia5_string(
        &mut self,
        tag: Tag,
        constraints: &Constraints,
        value: &Ia5String,
        _identifier: Identifier,
    ) -> Result<(), EncodeError>
        ensures ok { OnOk result (AppendsEncoding (leaf ia5 tag constraints.now) (numbers value.now) self.old self.new) }
        ensures err { OnErr result (self.new ≡ self.old) }
        ensures fails { IfErr result (FailsAtString constraints.now (length value.now) self.old.rule) }
        ensures rules { IfErr result (λ e. e.codec ≡ self.old.rule) }
    {
        self.restricted::<Ia5Type>(tag, constraints, value)
    }

    /// Writes a PrintableString (X.690 8.23). The canonical rules write more than 1000 octets in
    /// segments (9.2).
    ///
    /// # Errors
    /// `SizeConstraintNotSatisfied` if the number of octets is out of bounds, otherwise only
    /// `OutOfMemory`.
    pub fn encode_printable_string(
        &mut self,
        tag: Tag,
        constraints: &Constraints,
        value: &PrintableString,
        _identifier: Identifier,
    ) -> Result<(), EncodeError>
        ensures ok { OnOk result (AppendsEncoding (leaf printable tag constraints.now) (numbers value.now) self.old self.new) }
        ensures err { OnErr result (self.new ≡ self.old) }
        ensures fails { IfErr result (FailsAtString constraints.now (length value.now) self.old.rule) }
        ensures rules { IfErr result (λ e. e.codec ≡ self.old.rule) }
    {
        self.restricted::<PrintableType>(tag, constraints, value)
    }

    /// Writes a NumericString (X.690 8.23). The canonical rules write more than 1000 octets in
    /// segments (9.2).
    ///
    /// # Errors
    /// `SizeConstraintNotSatisfied` if the number of octets is out of bounds, otherwise only
    /// `OutOfMemory`.
    pub fn encode_numeric_string(
        &mut self,
        tag: Tag,
        constraints: &Constraints,
        value: &NumericString,
        _identifier: Identifier,
    ) -> Result<(), EncodeError>
        ensures ok { OnOk result (AppendsEncoding (leaf numeric tag constraints.now) (numbers value.now) self.old self.new) }
        ensures err { OnErr result (self.new ≡ self.old) }
        ensures fails { IfErr result (FailsAtString constraints.now (length value.now) self.old.rule) }
        ensures rules { IfErr result (λ e. e.codec ≡ self.old.rule) }
    {
        self.restricted::<NumericType>(tag, constraints, value)
    }

    /// Writes a TeletexString (X.690 8.23). The canonical rules write more than 1000 octets in
    /// segments (9.2).
    ///
    /// # Errors
    /// `SizeConstraintNotSatisfied` if the number of octets is out of bounds, otherwise only
    /// `OutOfMemory`.
    pub fn encode_teletex_string(
        &mut self,
        tag: Tag,
        constraints: &Constraints,
        value: &TeletexString,
        _identifier: Identifier,
    ) -> Result<(), EncodeError>
        ensures ok { OnOk result (AppendsEncoding (leaf any_octets tag constraints.now) (numbers value.now) self.old self.new) }
        ensures err { OnErr result (self.new ≡ self.old) }
        ensures fails { IfErr result (FailsAtString constraints.now (length value.now) self.old.rule) }
        ensures rules { IfErr result (λ e. e.codec ≡ self.old.rule) }
    {
        self.restricted::<TeletexType>(tag, constraints, value)
    }

    /// Writes a GeneralString (X.690 8.23). The canonical rules write more than 1000 octets in
    /// segments (9.2).
    ///
    /// # Errors
    /// `SizeConstraintNotSatisfied` if the number of octets is out of bounds, otherwise only
    /// `OutOfMemory`.
    pub fn encode_general_string(
        &mut self,
        tag: Tag,
        constraints: &Constraints,
        value: &GeneralString,
        _identifier: Identifier,
    ) -> Result<(), EncodeError>
        ensures ok { OnOk result (AppendsEncoding (leaf any_octets tag constraints.now) (numbers value.now) self.old self.new) }
        ensures err { OnErr result (self.new ≡ self.old) }
        ensures fails { IfErr result (FailsAtString constraints.now (length value.now) self.old.rule) }
        ensures rules { IfErr result (λ e. e.codec ≡ self.old.rule) }
    {
        self.restricted::<GeneralType>(tag, constraints, value)
    }

    /// Writes a GraphicString (X.690 8.23). The canonical rules write more than 1000 octets in
    /// segments (9.2).
    ///
    /// # Errors
    /// `SizeConstraintNotSatisfied` if the number of octets is out of bounds, otherwise only
    /// `OutOfMemory`.
    pub fn encode_graphic_string(
        &mut self,
        tag: Tag,
        constraints: &Constraints,
        value: &GraphicString,
        _identifier: Identifier,
    ) -> Result<(), EncodeError>
        ensures ok { OnOk result (AppendsEncoding (leaf any_octets tag constraints.now) (numbers value.now) self.old self.new) }
        ensures err { OnErr result (self.new ≡ self.old) }
        ensures fails { IfErr result (FailsAtString constraints.now (length value.now) self.old.rule) }
        ensures rules { IfErr result (λ e. e.codec ≡ self.old.rule) }
    {
        self.restricted::<GraphicType>(tag, constraints, value)
    }

    /// Writes a BMPString: 16-bit units, the high octet first (X.690 8.23.8). The canonical rules
    /// write more than 1000 octets in segments (9.2).
    ///
    /// # Errors
    /// `SizeConstraintNotSatisfied` if the number of units is out of bounds, otherwise only
    /// `OutOfMemory`.
    pub fn encode_bmp_string(
        &mut self,
        tag: Tag,
        constraints: &Constraints,
        value: &BmpString,
        _identifier: Identifier,
    ) -> Result<(), EncodeError>
        ensures ok { OnOk result (AppendsEncoding (leaf bmp tag constraints.now) (numbers (units_of value.now)) self.old self.new) }
        ensures err { OnErr result (self.new ≡ self.old) }
        ensures fails { IfErr result (FailsAtString constraints.now (length (units_of value.now)) self.old.rule) }
        ensures rules { IfErr result (λ e. e.codec ≡ self.old.rule) }
    {
        let octets = value.as_octets();
        self.string(tag, constraints, octets, octets.len() / 2)
    }

    /// Writes a UTF8String (X.690 8.23.10). The canonical rules write more than 1000 octets in
    /// segments (9.2).
    ///
    /// # Errors
    /// `SizeConstraintNotSatisfied` if the number of characters is out of bounds, otherwise only
    /// `OutOfMemory`.
    pub fn encode_utf8_string(
        &mut self,
        tag: Tag,
        constraints: &Constraints,
        value: &str,
        _identifier: Identifier,
    ) -> Result<(), EncodeError>
        ensures ok { OnOk result (AppendsEncoding (leaf utf8 tag constraints.now) (numbers (chars value.now)) self.old self.new) }
        ensures err { OnErr result (self.new ≡ self.old) }
        ensures fails { IfErr result (FailsAtString constraints.now (length (chars value.now)) self.old.rule) }
        ensures rules { IfErr result (λ e. e.codec ≡ self.old.rule) }
    {
        let size = character_count(constraints, value);
        self.string(tag, constraints, value.as_bytes(), size)
    }

    /// Writes a string whose octets are characters of one alphabet.
    pub(crate) fn restricted<S: StringType>(
        &mut self,
        tag: Tag,
        constraints: &Constraints,
        value: &RestrictedString<S>,
    ) -> Result<(), EncodeError>
        ensures ok { OnOk result (AppendsEncoding (leaf (string_kind S.ALPHABET) tag constraints.now) (numbers value.now) self.old self.new) }
        ensures err { OnErr result (self.new ≡ self.old) }
        ensures fails { IfErr result (FailsAtString constraints.now (length value.now) self.old.rule) }
        ensures rules { IfErr result (λ e. e.codec ≡ self.old.rule) }
    {
        let octets = value.as_octets();
        self.string(tag, constraints, octets, octets.len())
    }
}

impl<S: StringType> Encode for RestrictedString<S> {
    ghost use Rattle.std.specs.Prelude.{length};
    ghost use Rattle.rasn_enc.specs.Errors.{FailsAtString};

    ghost errors = { λ tag c v rule e. FailsAtString c (length v) rule e };

    fn encode_with_tag_and_constraints(
        &self,
        encoder: &mut Encoder,
        tag: Tag,
        constraints: &Constraints,
        _identifier: Identifier,
    ) -> Result<(), EncodeError> {
        encoder.restricted(tag, constraints, self)
    }

    fn is_present(&self) -> bool {
        true
    }
}

impl Encode for BmpString {
    ghost use Rattle.std.specs.Prelude.{length};
    ghost use Rattle.rasn_types.specs.CharacterString.{units_of};
    ghost use Rattle.rasn_enc.specs.Errors.{FailsAtString};

    ghost errors = { λ tag c v rule e. FailsAtString c (length (units_of v)) rule e };

    fn encode_with_tag_and_constraints(
        &self,
        encoder: &mut Encoder,
        tag: Tag,
        constraints: &Constraints,
        identifier: Identifier,
    ) -> Result<(), EncodeError> {
        encoder.encode_bmp_string(tag, constraints, self, identifier)
    }

    fn is_present(&self) -> bool {
        true
    }
}

impl Encode for String {
    ghost use Rattle.std.specs.Prelude.{length, chars};
    ghost use Rattle.std.specs.String.{string_bytes};
    ghost use Rattle.rasn_enc.specs.Errors.{FailsAtString};

    ghost errors = { λ tag c v rule e. FailsAtString c (length (chars (string_bytes v))) rule e };

    fn encode_with_tag_and_constraints(
        &self,
        encoder: &mut Encoder,
        tag: Tag,
        constraints: &Constraints,
        identifier: Identifier,
    ) -> Result<(), EncodeError> {
        encoder.encode_utf8_string(tag, constraints, self.as_str(), identifier)
    }

    fn is_present(&self) -> bool {
        true
    }
}
