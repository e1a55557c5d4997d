//! Laws of schemas as octets. The functions do nothing when they run.
ghost use Rattle.std.specs.Prelude.{◌≡◌, true};
ghost use Rattle.rasn_types.specs.Lawful.{IsLawful};
ghost use Rattle.rasn.specs.Carries.{carries_all};
ghost use Rattle.rasn_schema_octets.specs.Octets.{RefusedRightly};
ghost use Rattle.rasn_schema_octets.specs.Shapes.{octets_shape};
ghost use Rattle.rasn_schema_octets.specs.Worked.{Worked};

/// Proves that the shape of the form is lawful, and that everything that DER reads of it is
/// carried.
pub fn has_lawful_shape()
    ensures lawful { IsLawful octets_shape }
    ensures carried { carries_all octets_shape ≡ true }
{}

/// Proves that after an error of `read` that isn't `OutOfMemory` or `Rule`, the octets are those of
/// no schema whose number is that of a type, whose defaults aren't nested too deep, and which says
/// what is within the limits of carried values.
pub fn refused_rightly()
    ensures { RefusedRightly }
{}

/// Proves that the definitions hold of octets and faults that are worked out by hand, and of others
/// don't.
pub fn worked_octets()
    ensures { Worked }
{}
