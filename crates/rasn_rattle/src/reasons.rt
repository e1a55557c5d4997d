//! Why a type is written as an open type.
use crate::plan::Plan;
use rasn_schema::{Component, Presence, Type, components_of};
use std::alloc::AllocError;

impl Plan<'_> {
    /// Returns why a type is written as an open type, if it is.
    pub(crate) fn reason_against(&self, id: usize) -> Result<Option<&'static str>, AllocError> {
        if self.is_opened(id) {
            return Ok(Some("the option `--open` names it"));
        }
        let ty = self.type_of(id);
        for component in components_of(ty) {
            let has_default = matches!(component.presence, Presence::Default(_));
            if has_default && self.default_of(id, component)?.is_none() {
                return Ok(Some("a default of this kind isn't written"));
            }
        }
        if let Type::Choice { .. } = ty {
            return self.reason_against_choice(id);
        }
        Ok(match ty {
            Type::Sequence { components, .. } => reason_against_sequence(components),
            Type::Set { components, .. } => self.reason_against_set(components),
            _ => None,
        })
    }

    /// Returns why a SET is written as an open type, if it is: a part of it has to have a tag by
    /// which it is put in order (X.690 9.3, 10.3).
    fn reason_against_set(&self, components: &[Component]) -> Option<&'static str> {
        for component in components {
            let ty = self.type_of(component.type_id.0);
            let is_unknown = matches!(ty, Type::Unknown);
            if !self.has_tag(component.type_id) && !is_unknown {
                return Some("a component has no tag of its own");
            }
            let is_explicit = matches!(ty, Type::Tagged { .. });
            match component.presence {
                Presence::Default(_) if is_explicit => {
                    return Some("a default has an explicit tag");
                }
                Presence::Addition => return Some("it has an addition with an explicit tag"),
                _ => {}
            }
        }
        None
    }

    /// Returns why a CHOICE is written as an open type, if it is. The last alternative of one with
    /// an extension marker, which has no tag, is that of unknown values.
    fn reason_against_choice(&self, id: usize) -> Result<Option<&'static str>, AllocError> {
        let placed = self.placed_of(id)?;
        let count = placed.len();
        for (index, alternative) in placed.iter().enumerate() {
            let ty = self.type_of(alternative.type_id.0);
            let is_last = index.saturating_add(1) == count
                && index > 0
                && matches!(ty, Type::Any { .. });
            if !self.has_tag(alternative.type_id) && !is_last {
                return Ok(Some("an alternative has no tag of its own"));
            }
        }
        Ok(None)
    }
}

/// Returns why a SEQUENCE is written as an open type, if it is.
fn reason_against_sequence(components: &[Component]) -> Option<&'static str> {
    let has_addition = components.iter().any(|component| matches!(
        component.presence,
        Presence::Addition
    ));
    let has_required = components.iter().any(|component| matches!(
        component.presence,
        Presence::Required
    ));
    if has_addition && !has_required {
        return Some("it has an addition, but no component that is always present");
    }
    None
}
