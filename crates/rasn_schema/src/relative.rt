//! RELATIVE-OID: arcs, of which an OBJECT IDENTIFIER holds the first as two (X.680 33, X.690 8.20).
ghost use Rattle.std.specs.Prelude.{◌≡◌, drop, IfOk};
ghost use Rattle.rasn_types.specs.Options.{IsSomeRelated};
ghost use Rattle.rasn_schema.specs.Relative.{first_arc, IsRelativeText};

use rasn_types::types::ObjectIdentifier;
use std::alloc::{AllocError, Global};
use std::fmt;

/// The arcs of a RELATIVE-OID. Its contents octets are those of the OBJECT IDENTIFIER whose first
/// two arcs have the first one as their subidentifier (X.690 8.19.4, 8.20).
#[derive(Clone, Copy)]
pub struct RelativeOid<'arcs> {
    /// The OBJECT IDENTIFIER.
    pub held: &'arcs ObjectIdentifier,
}

impl<'arcs> RelativeOid<'arcs> {
    /// Returns the first arc.
    pub fn first(&self) -> u64
        ensures { result ≡ first_arc self.now.held.now }
    {
        match self.held.arcs() {
            [first, second, ..] => 40 * u64::from(*first) + u64::from(*second),
            _ => 0,
        }
    }

    /// Returns the arcs after the first one.
    pub fn others(&self) -> &'arcs [u32]
        ensures { result.now ≡ drop 2 self.now.held.now }
    {
        match self.held.arcs() {
            [_, _, others @ ..] => others,
            _ => &[],
        }
    }

    /// Returns the OBJECT IDENTIFIER that holds the arcs that a text has, in decimal with a point
    /// between each two: `8571.3.2`. Returns `None` if the text is none, or an arc is 2^32 or more.
    ///
    /// # Errors
    /// If an allocation fails.
    pub fn parse(alloc: Global, text: &str) -> Result<Option<ObjectIdentifier>, AllocError>
        ensures { IfOk result (λ v. IsSomeRelated v (IsRelativeText text.now)) }
    {
        // Two arcs before the text make it that of an OBJECT IDENTIFIER.
        let Some(all) = ObjectIdentifier::parse(alloc, &format!(in alloc; "2.0.{text}")?)? else {
            return Ok(None);
        };
        let [_, _, first, others @ ..] = all.arcs() else {
            return Ok(None);
        };
        let top = (*first / 40).min(2);
        let mut arcs = Vec::from_slice(alloc, &[top, *first - 40 * top])?;
        arcs.extend_from_slice(others)?;
        Ok(ObjectIdentifier::new(arcs))
    }
}

/// Writes the arcs in decimal, with a point between each two: `8571.3.2`.
impl fmt::Display for RelativeOid<'_> {
    ghost use Rattle.std.specs.Prelude.{Some};
    ghost use Rattle.rasn_schema.specs.Relative.{relative_text};

    ghost output = { λ o. Some (relative_text o.held.now) };

    fn fmt<W: fmt::Write>(&self, f: &mut fmt::Formatter<W>) -> fmt::Result {
        let first = self.first();
        write!(f, "{first}")?;
        for arc in self.others() {
            write!(f, ".{arc}")?;
        }
        Ok(())
    }
}
