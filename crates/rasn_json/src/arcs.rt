//! OBJECT IDENTIFIER (X.697, encoding of object identifier values).
ghost use Rattle.std.specs.Prelude.{All};
ghost use Rattle.rasn_types.specs.Text.{IsSmall};
ghost use Rattle.rasn_types.specs.Truth.{IsWhether};
ghost use Rattle.rasn_json.specs.Texts.{HaveSubidentifier};

/// Returns whether the first two arcs have a subidentifier: under 0 and 1 there are 40 arcs (X.660
/// 7.6, X.690 8.19.4).
pub fn have_subidentifier(arcs: &[u32]) -> bool
    ensures whether { IsWhether result (HaveSubidentifier arcs.now) }
    ensures small { All IsSmall arcs.now }
{
    match arcs {
        [first, second, ..] => *first == 2 || *second < 40,
        _ => false,
    }
}
