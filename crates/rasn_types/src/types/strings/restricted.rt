//! String types whose octets are single characters.
ghost use Rattle.std.specs.Prelude.{◌≡◌, IfOk, Option};
ghost use Rattle.rasn_types.specs.CharacterString.{AreAdmitted, string_kind};
ghost use Rattle.rasn_types.specs.Options.{IsSomeExactlyIf};

use crate::types::{Alphabet, AsnType, Constraints, Tag, TryClone};
use std::alloc::{AllocError, Global};
use std::cmp::Ordering;
use std::marker::{Model, PhantomData};
use std::{fmt, str};

/// The tag and the alphabet that distinguish a string type from the others.
pub trait StringType: Drop {
    ghost use Rattle.rasn_types.specs.declared.types.tag.Tag.{Tag};
    ghost use Rattle.rasn_types.specs.declared.types.strings.alphabet.Alphabet.{Alphabet};

    ghost TAG: { Tag };

    /// The tag of the type.
    const TAG: Tag;

    ghost ALPHABET: { Alphabet };

    /// The octets that the type admits.
    const ALPHABET: Alphabet;
}

/// A string type that admits only ASCII.
pub trait AsciiType: StringType {
    ghost use Rattle.rasn_types.specs.CharacterString.{IsWithinAscii};

    ghost ascii: { IsWithinAscii Self.ALPHABET };
}

/// A string of a type whose octets are single characters, all of them in its alphabet (X.680 41).
///
/// Values are ordered lexicographically by their octets.
///
/// Contracts see it as the list of its octets.
#[derive(Debug, Drop)]
pub struct RestrictedString<S: StringType> {
    octets: Vec<u8>,
    of: PhantomData<S>,
}

impl<S: StringType> Model for RestrictedString<S> {
    ghost use Rattle.std.specs.Prelude.{List, ℕ};
    ghost use Rattle.rasn_types.specs.CharacterString.{AreAdmitted};

    ghost Value = { List ℕ };

    ghost view = { λ a. a.octets.items };

    ghost invariant = { λ a. AreAdmitted S.ALPHABET a.octets.items };
}

impl<S: StringType> RestrictedString<S> {
    /// Returns a string with a copy of these octets, or `None` if one of them isn't in the
    /// alphabet.
    ///
    /// # Errors
    /// If an allocation fails.
    pub fn from_octets(
        alloc: Global,
        octets: &[u8],
    ) -> Result<Option<RestrictedString<S>>, AllocError>
        ensures { IfOk result (λ v. IsSomeExactlyIf v (AreAdmitted S.ALPHABET octets.now) octets.now) }
    {
        if S::ALPHABET.first_foreign(octets).is_some() {
            return Ok(None);
        }
        let mut kept = Vec::new(alloc);
        kept.extend_from_slice(octets)?;
        Ok(Some(RestrictedString::from_admitted(kept)))
    }

    /// Returns the string of these octets, which are all in the alphabet.
    pub fn from_admitted(octets: Vec<u8>) -> RestrictedString<S>
        requires { AreAdmitted S.ALPHABET octets.items }
        ensures { result ≡ octets.items }
    {
        RestrictedString {
            octets,
            of: PhantomData,
        }
    }

    /// Returns the octets.
    pub fn as_octets(&self) -> &[u8]
        ensures octets { result.now ≡ self.now }
        ensures admitted { AreAdmitted S.ALPHABET self.now }
    {
        self.octets.as_slice()
    }

    /// Returns the octets without a copy.
    pub fn into_vec(self) -> Vec<u8>
        ensures octets { result.items ≡ self }
        ensures admitted { AreAdmitted S.ALPHABET self }
    {
        let RestrictedString { octets, of: _ } = self;
        octets
    }
}

impl<S: AsciiType> RestrictedString<S> {
    /// Returns the string as text: each octet is its character.
    pub fn as_str(&self) -> &str
        ensures { result.now ≡ self.now }
    {
        let octets = self.as_octets();
        // SAFETY: all octets are ASCII, which is UTF-8.
        unsafe { str::from_utf8_unchecked(octets) }
    }
}

/// Writes the text.
impl<S: AsciiType> fmt::Display for RestrictedString<S> {
    ghost use Rattle.std.specs.Prelude.{Some};

    ghost output = { λ s. Some s };

    fn fmt<W: fmt::Write>(&self, f: &mut fmt::Formatter<W>) -> fmt::Result {
        self.as_str().fmt(f)
    }
}

impl<S: StringType> PartialEq for RestrictedString<S> {
    ghost use Rattle.std.specs.Prelude.{nat_eq};
    ghost use Rattle.std.specs.Cmp.{partial_equiv_from_equiv};
    ghost use Rattle.std.specs.Cmp.Lexicographic.{pointwise, nat_list_eq_equiv};

    ghost eq = { pointwise nat_eq };

    ghost laws = { partial_equiv_from_equiv nat_list_eq_equiv };

    fn eq(&self, other: &RestrictedString<S>) -> bool {
        self.octets == other.octets
    }
}

impl<S: StringType> Eq for RestrictedString<S> {
    ghost use Rattle.std.specs.Cmp.Lexicographic.{nat_list_eq_equiv};

    ghost laws = { nat_list_eq_equiv };
}

impl<S: StringType> PartialOrd for RestrictedString<S> {
    ghost use Rattle.std.specs.Prelude.{Some};
    ghost use Rattle.std.specs.Cmp.Lexicographic.{slice_cmp, texts_po};
    ghost use Rattle.std.specs.Ordering.{nat_cmp};

    ghost partial_cmp = { λ s t. Some (slice_cmp nat_cmp s t) };

    ghost laws = { texts_po };

    fn partial_cmp(&self, other: &RestrictedString<S>) -> Option<Ordering> {
        Some(self.cmp(other))
    }
}

impl<S: StringType> Ord for RestrictedString<S> {
    ghost use Rattle.std.specs.Cmp.Lexicographic.{slice_cmp, nat_list_cmp_total, texts_ties};
    ghost use Rattle.std.specs.Ordering.{nat_cmp};
    ghost use Rattle.std.proofs.Common.{rules};

    ghost cmp = { slice_cmp nat_cmp };

    ghost total = { nat_list_cmp_total };

    ghost matches_partial_cmp = { Prim.search rules };

    ghost matches_eq = { texts_ties };

    fn cmp(&self, other: &RestrictedString<S>) -> Ordering {
        self.octets.cmp(&other.octets)
    }
}

impl<S: StringType> AsnType for RestrictedString<S> {
    ghost use Rattle.std.specs.Prelude.{refl};
    ghost use Rattle.rasn_types.specs.Shapes.{leaf, numbers};
    ghost use Rattle.rasn_types.specs.CharacterString.{string_kind};
    ghost use Rattle.rasn_types.specs.Trees.{unconstrained};

    ghost TAG = { S.TAG };

    const TAG: Tag = S::TAG;

    ghost CONSTRAINTS = { unconstrained };

    const CONSTRAINTS: Constraints = Constraints::NONE;

    ghost shape = { leaf (string_kind S.ALPHABET) S.TAG unconstrained };

    ghost tree = { λ s. numbers s };

    ghost own = { refl };
}

/// The parameter of `RestrictedString` for NumericString.
#[derive(Clone, Copy, Debug, Drop)]
pub struct NumericType;

/// NumericString: digits and space (X.680 41).
pub type NumericString = RestrictedString<NumericType>;

impl StringType for NumericType {
    ghost use Rattle.rasn_types.specs.Tags.{in_universal};
    ghost use Rattle.rasn_types.specs.declared.types.strings.alphabet.Alphabet.TheVariants.{Numeric};

    ghost TAG = { in_universal 18 };

    const TAG: Tag = Tag::NUMERIC_STRING;

    ghost ALPHABET = { Numeric };

    const ALPHABET: Alphabet = Alphabet::Numeric;
}

impl AsciiType for NumericType {
    ghost use Rattle.rasn_types.specs.CharacterString.{numeric_ascii};

    ghost ascii = { numeric_ascii };
}

/// The parameter of `RestrictedString` for PrintableString.
#[derive(Clone, Copy, Debug, Drop)]
pub struct PrintableType;

/// PrintableString: letters, digits, space and `' ( ) + , - . / : = ?` (X.680 41).
pub type PrintableString = RestrictedString<PrintableType>;

impl StringType for PrintableType {
    ghost use Rattle.rasn_types.specs.Tags.{in_universal};
    ghost use Rattle.rasn_types.specs.declared.types.strings.alphabet.Alphabet.TheVariants.{Printable};

    ghost TAG = { in_universal 19 };

    const TAG: Tag = Tag::PRINTABLE_STRING;

    ghost ALPHABET = { Printable };

    const ALPHABET: Alphabet = Alphabet::Printable;
}

impl AsciiType for PrintableType {
    ghost use Rattle.rasn_types.specs.CharacterString.{printable_ascii};

    ghost ascii = { printable_ascii };
}

/// The parameter of `RestrictedString` for VisibleString.
#[derive(Clone, Copy, Debug, Drop)]
pub struct VisibleType;

/// VisibleString: `20` to `7E` (X.680 41).
pub type VisibleString = RestrictedString<VisibleType>;

impl StringType for VisibleType {
    ghost use Rattle.rasn_types.specs.Tags.{in_universal};
    ghost use Rattle.rasn_types.specs.declared.types.strings.alphabet.Alphabet.TheVariants.{Visible};

    ghost TAG = { in_universal 26 };

    const TAG: Tag = Tag::VISIBLE_STRING;

    ghost ALPHABET = { Visible };

    const ALPHABET: Alphabet = Alphabet::Visible;
}

impl AsciiType for VisibleType {
    ghost use Rattle.rasn_types.specs.CharacterString.{visible_ascii};

    ghost ascii = { visible_ascii };
}

/// The parameter of `RestrictedString` for IA5String.
#[derive(Clone, Copy, Debug, Drop)]
pub struct Ia5Type;

/// IA5String: `00` to `7F` (X.680 41).
pub type Ia5String = RestrictedString<Ia5Type>;

impl StringType for Ia5Type {
    ghost use Rattle.rasn_types.specs.Tags.{in_universal};
    ghost use Rattle.rasn_types.specs.declared.types.strings.alphabet.Alphabet.TheVariants.{Ia5};

    ghost TAG = { in_universal 22 };

    const TAG: Tag = Tag::IA5_STRING;

    ghost ALPHABET = { Ia5 };

    const ALPHABET: Alphabet = Alphabet::Ia5;
}

impl AsciiType for Ia5Type {
    ghost use Rattle.rasn_types.specs.CharacterString.{ia5_ascii};

    ghost ascii = { ia5_ascii };
}

/// The parameter of `RestrictedString` for TeletexString.
#[derive(Clone, Copy, Debug, Drop)]
pub struct TeletexType;

/// TeletexString: every octet (X.680 41).
pub type TeletexString = RestrictedString<TeletexType>;

impl StringType for TeletexType {
    ghost use Rattle.rasn_types.specs.Tags.{in_universal};
    ghost use Rattle.rasn_types.specs.declared.types.strings.alphabet.Alphabet.TheVariants.{Every};

    ghost TAG = { in_universal 20 };

    const TAG: Tag = Tag::TELETEX_STRING;

    ghost ALPHABET = { Every };

    const ALPHABET: Alphabet = Alphabet::Every;
}

/// The parameter of `RestrictedString` for GeneralString.
#[derive(Clone, Copy, Debug, Drop)]
pub struct GeneralType;

/// GeneralString: every octet (X.680 41).
pub type GeneralString = RestrictedString<GeneralType>;

impl StringType for GeneralType {
    ghost use Rattle.rasn_types.specs.Tags.{in_universal};
    ghost use Rattle.rasn_types.specs.declared.types.strings.alphabet.Alphabet.TheVariants.{Every};

    ghost TAG = { in_universal 27 };

    const TAG: Tag = Tag::GENERAL_STRING;

    ghost ALPHABET = { Every };

    const ALPHABET: Alphabet = Alphabet::Every;
}

/// The parameter of `RestrictedString` for GraphicString.
#[derive(Clone, Copy, Debug, Drop)]
pub struct GraphicType;

/// GraphicString: every octet (X.680 41).
pub type GraphicString = RestrictedString<GraphicType>;

impl StringType for GraphicType {
    ghost use Rattle.rasn_types.specs.Tags.{in_universal};
    ghost use Rattle.rasn_types.specs.declared.types.strings.alphabet.Alphabet.TheVariants.{Every};

    ghost TAG = { in_universal 25 };

    const TAG: Tag = Tag::GRAPHIC_STRING;

    ghost ALPHABET = { Every };

    const ALPHABET: Alphabet = Alphabet::Every;
}

impl<S: StringType> TryClone for RestrictedString<S> {
    fn try_clone(&self, alloc: Global) -> Result<RestrictedString<S>, AllocError>
        ensures { IfOk result (λ v. v ≡ self.now) }
    {
        let octets = Vec::from_slice(alloc, &self.octets)?;
        Ok(RestrictedString {
            octets,
            of: PhantomData,
        })
    }
}
