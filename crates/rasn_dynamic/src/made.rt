//! Whether a reader builds values, or only checks.
ghost use Rattle.std.specs.Prelude.{◌≡◌, Bool, true, false, None, MatchOption, IfSome, IfOk, IfErr};
ghost use Rattle.rasn_schema.specs.Shapes.{shape_of_type, IsReadable};
ghost use Rattle.rasn_schema.specs.Trees.{tree_of};
ghost use Rattle.rasn_de.specs.State.{State};
ghost use Rattle.rasn_dynamic.specs.Inside.{DecodesTree};
ghost use Rattle.rasn_dynamic.specs.Making.{Making, outcome};
ghost use Rattle.rasn_dynamic.specs.Faults.{IsFaultIn, IsOnly, TellsOf};
ghost use Rattle.rasn_dynamic.specs.Listed.{Lists, Inside, PartListed};
ghost use Rattle.rasn_dynamic.specs.Times.{Covers, FitsFrom};

use crate::reader::decode_part;
use crate::types::Types;
use crate::walk::{Refused, Walk};
use rasn_de::ber::de::Decoder;
use rasn_schema::{TypeId, Value};

/// Whether a reader builds values, or only checks.
pub trait Made {
    /// Whether it makes values.
    const KEEP: bool;

    ghost KEEP: { Bool };

    /// Reads a part and makes its value, if the reader itself makes none.
    fn decode_value<'input>(
        decoder: &mut Decoder<'input>,
        walk: &mut Walk<'input>,
        types: &Types<'_>,
        id: TypeId,
        index: usize,
        out: &mut Value<'input>,
    ) -> Option<Result<(), Refused>>
        requires lawful { IsReadable (shape_of_type types.now.list.now types.now.levels id.0) }
        requires clear { walk.old.fault ≡ None }
        ensures reads { MatchOption result ((KEEP ≡ true) × (decoder.new ≡ decoder.old) × (walk.new.fault ≡ None)) (λ r. Making true tree_of (DecodesTree (shape_of_type types.now.list.now types.now.levels id.0)) decoder.old (outcome r out.new walk.new.error) decoder.new) }
        ensures fits { IfSome result (λ r. (s : State) → Covers s decoder.old → IfOk (outcome r out.new walk.new.error) (λ v. FitsFrom s types.now.list.now types.now.levels id.0 v)) }
        ensures rules { IfSome result (λ r. IfErr (outcome r out.new walk.new.error) (λ e. e.codec ≡ decoder.old.rule)) }
        ensures told { IfSome result (λ r. TellsOf (IsFaultIn types.now.list.now types.now.levels (IsOnly index id.0 decoder.old) decoder.old decoder.old) (outcome r out.new walk.new.error) walk.new.fault) }
        ensures listed { MatchOption result (walk.new.spans ≡ walk.old.spans) (λ r. IfOk (outcome r out.new walk.new.error) (λ v. Lists (λ b es. PartListed (shape_of_type types.now.list.now types.now.levels) types.now.levels (Inside types.now.list.now types.now.levels) id.0 index b decoder.old decoder.new es) walk.old.spans walk.new.spans)) };
}

/// Values.
pub struct Values;

/// Nothing, except of a part that has to be compared.
pub struct Nothing;

impl Made for Values {
    const KEEP: bool = true;

    ghost KEEP = { true };

    #[inline(always)]
    fn decode_value<'input>(
        _decoder: &mut Decoder<'input>,
        _walk: &mut Walk<'input>,
        _types: &Types<'_>,
        _id: TypeId,
        _index: usize,
        _out: &mut Value<'input>,
    ) -> Option<Result<(), Refused>> {
        None
    }
}

impl Made for Nothing {
    const KEEP: bool = false;

    ghost KEEP = { false };

    fn decode_value<'input>(
        decoder: &mut Decoder<'input>,
        walk: &mut Walk<'input>,
        types: &Types<'_>,
        id: TypeId,
        index: usize,
        out: &mut Value<'input>,
    ) -> Option<Result<(), Refused>> {
        Some(decode_part::<Values>(decoder, walk, types, id, index, out))
    }
}
