//! OBJECT IDENTIFIER.
ghost use Rattle.std.specs.Prelude.{◌≡◌, IfOk};
ghost use Rattle.std.specs.Fmt.{WritesOnOk};
ghost use Rattle.std.specs.List.{flat_map};
ghost use Rattle.rasn_types.specs.Text.{point_and_arc, IsArcText, IsDotted, IsPlain};
ghost use Rattle.rasn_types.specs.Truth.{IsWhether};
ghost use Rattle.rasn_types.specs.Options.{IsSomeExactlyIf, IsSomeRelated};
ghost use Rattle.rasn_types.specs.Numbered.{AreArcs};

use crate::types::{AsnType, Constraints, Tag, TryClone};
use std::alloc::{AllocError, Global};
use std::cmp::Ordering;
use std::fmt;
use std::marker::Model;

/// A list of at least two arcs, the first at most 2 (X.660 7.6, X.680 32).
///
/// Values are ordered lexicographically by their arcs.
///
/// If the first arc is below 2 and the second is above 39, or the first is 2 and the second is
/// above 4294967215, the value has no encoding (X.690 8.19.4).
#[derive(Debug, Drop)]
pub struct ObjectIdentifier {
    arcs: Vec<u32>,
}

impl Model for ObjectIdentifier {
    ghost use Rattle.std.specs.Prelude.{List, ℕ};
    ghost use Rattle.rasn_types.specs.Numbered.{AreArcs};

    ghost Value = { List ℕ };

    ghost view = { λ o. o.arcs.items };

    ghost invariant = { λ o. AreArcs o.arcs.items };
}

impl ObjectIdentifier {
    /// Returns the object identifier with these arcs, or `None` unless there are at least two and
    /// the first is at most 2. Nothing is allocated.
    pub fn new(arcs: Vec<u32>) -> Option<ObjectIdentifier>
        ensures { IsSomeExactlyIf result (AreArcs arcs.items) arcs.items }
    {
        match arcs.as_slice() {
            [first, _, ..] if *first <= 2 => Some(ObjectIdentifier { arcs }),
            _ => None,
        }
    }

    /// Returns the object identifier with a copy of these arcs, or `None` unless there are at least
    /// two and the first is at most 2.
    ///
    /// # Errors
    /// If an allocation fails.
    pub fn from_arcs(alloc: Global, arcs: &[u32]) -> Result<Option<ObjectIdentifier>, AllocError>
        ensures { IfOk result (λ v. IsSomeExactlyIf v (AreArcs arcs.now) arcs.now) }
    {
        match arcs {
            [first, _, ..] if *first <= 2 => {
                let arcs = Vec::from_slice(alloc, arcs)?;
                Ok(Some(ObjectIdentifier { arcs }))
            }
            _ => Ok(None),
        }
    }

    /// Parses the text of an object identifier as `Display` writes it: its arcs in decimal, without
    /// a sign or leading zeros, with a point between each two. Returns `None` if the text isn't
    /// one.
    ///
    /// # Errors
    /// If an allocation fails.
    pub fn parse(alloc: Global, text: &str) -> Result<Option<ObjectIdentifier>, AllocError>
        ensures { IfOk result (λ v. IsSomeRelated v (IsDotted text.now)) }
    {
        let mut arcs = Vec::new(alloc);
        let mut rest = text;
        while let Some((front, behind)) = rest.split_once('.') {
            let Some(arc) = parse_arc(front) else {
                return Ok(None);
            };
            arcs.push(arc)?;
            rest = behind;
        }
        let Some(arc) = parse_arc(rest) else {
            return Ok(None);
        };
        arcs.push(arc)?;
        Ok(ObjectIdentifier::new(arcs))
    }

    /// Returns the arcs.
    pub fn arcs(&self) -> &[u32]
        ensures arcs { result.now ≡ self.now }
        ensures some { AreArcs self.now }
    {
        &self.arcs
    }

    /// Returns the arcs without a copy.
    pub fn into_vec(self) -> Vec<u32>
        ensures arcs { result.items ≡ self }
        ensures some { AreArcs self }
    {
        let ObjectIdentifier { arcs } = self;
        arcs
    }
}

/// Writes the arcs in decimal, with a point between each two: `2.999.3`.
impl fmt::Display for ObjectIdentifier {
    ghost use Rattle.std.specs.Prelude.{Some};
    ghost use Rattle.rasn_types.specs.Text.{dotted};

    ghost output = { λ o. Some (dotted o) };

    fn fmt<W: fmt::Write>(&self, f: &mut fmt::Formatter<W>) -> fmt::Result {
        if let [first, more @ ..] = self.arcs.as_slice() {
            write!(f, "{first}")?;
            write_arcs(f, more)?;
        }
        Ok(())
    }
}

// Parses the text of one arc.
fn parse_arc(text: &str) -> Option<u32>
    ensures { IsSomeRelated result (IsArcText text.now) }
{
    if is_plain(text.as_bytes()) {
        text.parse().ok()
    } else {
        None
    }
}

// Returns whether the text begins with a digit, and with `0` only if that is the whole text.
fn is_plain(octets: &[u8]) -> bool
    ensures { IsWhether result (IsPlain octets.now) }
{
    match octets {
        [first, others @ ..] => first.is_ascii_digit() && (*first != b'0' || others.is_empty()),
        [] => false,
    }
}

// Writes each arc after a point.
fn write_arcs<W: fmt::Write>(f: &mut fmt::Formatter<W>, arcs: &[u32]) -> fmt::Result
    ensures { WritesOnOk W.write_str_gives f.old result (flat_map point_and_arc arcs.now) f.new }
{
    for arc in arcs {
        write!(f, ".{arc}")?;
    }
    Ok(())
}

impl PartialEq for ObjectIdentifier {
    ghost use Rattle.std.specs.Prelude.{nat_eq};
    ghost use Rattle.std.specs.Cmp.Lexicographic.{pointwise};
    ghost use Rattle.std.proofs.Common.{rules};
    ghost use Rattle.std.specs.Cmp.Rules.{comparing};

    ghost eq = { pointwise nat_eq };

    ghost laws = { Prim.search (comparing, rules) };

    fn eq(&self, other: &ObjectIdentifier) -> bool {
        self.arcs == other.arcs
    }
}

impl Eq for ObjectIdentifier {
    ghost use Rattle.std.proofs.Common.{rules};
    ghost use Rattle.std.specs.Cmp.Rules.{comparing};

    ghost laws = { Prim.search (comparing, rules) };
}

impl PartialOrd for ObjectIdentifier {
    ghost use Rattle.std.specs.Prelude.{Some};
    ghost use Rattle.std.specs.Cmp.Lexicographic.{slice_cmp, texts_po};
    ghost use Rattle.std.specs.Ordering.{nat_cmp};

    ghost partial_cmp = { λ o p. Some (slice_cmp nat_cmp o p) };

    ghost laws = { texts_po };

    fn partial_cmp(&self, other: &ObjectIdentifier) -> Option<Ordering> {
        Some(self.cmp(other))
    }
}

impl Ord for ObjectIdentifier {
    ghost use Rattle.std.specs.Prelude.{refl};
    ghost use Rattle.std.specs.Cmp.Lexicographic.{slice_cmp, nat_list_cmp_total, texts_ties};
    ghost use Rattle.std.specs.Ordering.{nat_cmp};
    ghost use Rattle.std.proofs.Common.{rules};

    ghost cmp = { slice_cmp nat_cmp };

    ghost total = { nat_list_cmp_total };

    ghost matches_partial_cmp = { Prim.search rules };

    ghost matches_eq = { texts_ties };

    fn cmp(&self, other: &ObjectIdentifier) -> Ordering {
        self.arcs.cmp(&other.arcs)
    }
}

impl AsnType for ObjectIdentifier {
    ghost use Rattle.std.specs.Prelude.{refl};
    ghost use Rattle.rasn_types.specs.Shapes.{leaf, object_identifier, numbers};
    ghost use Rattle.rasn_types.specs.Tags.{in_universal};
    ghost use Rattle.rasn_types.specs.Trees.{unconstrained};

    ghost TAG = { in_universal 6 };

    const TAG: Tag = Tag::OBJECT_IDENTIFIER;

    ghost CONSTRAINTS = { unconstrained };

    const CONSTRAINTS: Constraints = Constraints::NONE;

    ghost shape = { leaf object_identifier (in_universal 6) unconstrained };

    ghost tree = { λ o. numbers o };

    ghost own = { refl };
}

impl TryClone for ObjectIdentifier {
    fn try_clone(&self, alloc: Global) -> Result<ObjectIdentifier, AllocError>
        ensures { IfOk result (λ v. v ≡ self.now) }
    {
        let arcs = Vec::from_slice(alloc, &self.arcs)?;
        Ok(ObjectIdentifier { arcs })
    }
}
