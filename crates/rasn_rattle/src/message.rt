//! The types of whole messages.
use crate::plan::Plan;
use crate::template::Values;
use rasn_types::types::Codec;
use std::alloc::AllocError;

/// That a type is one of whole messages.
const MESSAGE: &str = "
impl WholeMessage for @Name@ {
    ghost use Rattle.std.specs.Prelude.{refl};
    ghost use Rattle.rasn_types.specs.declared.types.codec.Codec.TheVariants.{@Rules@};

    ghost RULES = { @Rules@ };

    const RULES: Codec = Codec::@Rules@;

    ghost whole = { refl };
}
";

impl Plan<'_> {
    /// Adds to the text of a type's file that it is one of whole messages, if it is.
    pub(crate) fn with_message(&self, id: usize, text: String) -> Result<String, AllocError> {
        let Some(naming) = self.names.get(&id) else {
            return Ok(text);
        };
        let Some(rules) = self.options.rules_of(naming.notation.as_str()) else {
            return Ok(text);
        };
        let mut text = text;
        let mut values = Values::new(self.alloc);
        values.add_str("Name", naming.rust.as_str());
        values.add_str("Rules", rules_word(rules));
        text.push_str(values.filled(MESSAGE)?.as_str())?;
        Ok(text)
    }
}

/// Returns the word of encoding rules.
fn rules_word(rules: Codec) -> &'static str {
    match rules {
        Codec::Ber => "Ber",
        Codec::Cer => "Cer",
        Codec::Der => "Der",
    }
}
