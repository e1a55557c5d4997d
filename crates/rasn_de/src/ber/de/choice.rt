//! CHOICE (X.690 8.13).
ghost use Rattle.std.specs.Prelude.{◌≡◌, IfOk, IfErr};
ghost use Rattle.rasn_de.specs.Decodes.{Decodes};
ghost use Rattle.rasn_de.specs.Choice.{DecodesChosen};
ghost use Rattle.rasn_de.specs.Beyond.{got};
ghost use Rattle.rasn_de.specs.ValueErrors.{DecodesOr};

use crate::ber::de::Decoder;
use crate::de::DecodeChoice;
use rasn_types::error::DecodeError;
use rasn_types::types::Constraints;

impl<'input> Decoder<'input> {
    /// Reads the alternative that the next tag belongs to. The constraints are ignored.
    ///
    /// # Errors
    /// An error in the next identifier, which consumes nothing, or the error of `D::from_tag`.
    pub fn decode_choice<D: DecodeChoice>(
        &mut self,
        _constraints: &Constraints,
    ) -> Result<D, DecodeError>
        ensures exact { DecodesChosen (DecodesOr D.shape D.tree D.errors) self.old result self.new }
        ensures reads { Decodes D.shape D.tree self.old result self.new }
        ensures beyond { IfOk result (λ v. got D.beyond self.old v self.new) }
        ensures rules { IfErr result (λ e. e.codec ≡ self.old.rule) }
    {
        let tag = self.peek_tag()?;
        D::from_tag(self, tag)
    }
}
