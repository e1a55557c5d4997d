//! Text with values in it.
use std::alloc::{AllocError, Global};

/// The values of a template's names. Whether memory ran out for one of them is found out when the
/// template is filled, so that a value is added without a test of its own.
#[derive(Drop)]
pub(crate) struct Values {
    pub(crate) alloc: Global,
    values: Vec<(&'static str, String)>,
    lacks_memory: bool,
}

impl Values {
    /// Returns no values.
    pub(crate) fn new(alloc: Global) -> Values {
        Values {
            alloc,
            values: Vec::new(alloc),
            lacks_memory: false,
        }
    }

    /// Adds the value of a name, or notes that memory ran out for it.
    pub(crate) fn add(&mut self, name: &'static str, value: Result<String, AllocError>) {
        let is_added = match value {
            Ok(value) => self.values.push((name, value)).is_ok(),
            Err(_) => false,
        };
        self.lacks_memory |= !is_added;
    }

    /// Adds a copy of the value of a name.
    pub(crate) fn add_str(&mut self, name: &'static str, value: &str) {
        self.add(name, String::from_str(self.alloc, value));
    }

    /// Returns a template with a value in place of each name, which is between two `@`.
    ///
    /// # Errors
    ///
    /// Memory runs out for the text, or ran out for a value.
    pub(crate) fn filled(&self, template: &str) -> Result<String, AllocError> {
        if self.lacks_memory {
            return Err(AllocError);
        }
        let mut text = String::new(self.alloc);
        let mut is_name = false;
        for piece in template.split('@') {
            text.push_str(if is_name { self.value_of(piece) } else { piece })?;
            is_name = !is_name;
        }
        Ok(text)
    }

    /// Returns the value of a name.
    pub(crate) fn value_of(&self, name: &str) -> &str {
        for (known, value) in &self.values {
            if *known == name {
                return value.as_str();
            }
        }
        ""
    }
}

/// Adds what is between the items of a list, unless the text is empty.
pub(crate) fn push_separator(text: &mut String, separator: &str) -> Result<(), AllocError> {
    if text.is_empty() {
        return Ok(());
    }
    text.push_str(separator)
}

/// Adds a word as often as is said.
pub(crate) fn push_times(text: &mut String, word: &str, count: usize) -> Result<(), AllocError> {
    for _ in 0..count {
        text.push_str(word)?;
    }
    Ok(())
}

/// Returns those of the words that are in a text, and one more, with commas between them.
pub(crate) fn used(
    alloc: Global,
    text: &str,
    words: &[&str],
    more: &str,
) -> Result<String, AllocError> {
    let mut used = String::new(alloc);
    for word in words {
        if text.contains(*word) {
            write!(used, "{word}, ")?;
        }
    }
    used.push_str(more)?;
    Ok(used)
}
