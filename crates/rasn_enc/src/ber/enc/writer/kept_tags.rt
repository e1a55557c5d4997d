//! The tags that a list keeps, if it keeps any.
ghost use Rattle.std.specs.Prelude.{◌≡◌, ◌++◌, ◌∷◌, [], take, option_map, OnOk};
ghost use Rattle.rasn_types.specs.Truth.{IsWhether, IsUnless};
ghost use Rattle.rasn_types.specs.Tags.{IsTagBelow};
ghost use Rattle.rasn_types.specs.Bytes.{AreAscending};
ghost use Rattle.rasn_enc.specs.Buffer.Lists.{tags_of, HasRoom};
ghost use Rattle.rasn_enc.specs.Order.{FallsAt};

use rasn_types::types::Tag;
use std::alloc::AllocError;

/// Reserves room for one more tag, if tags are kept.
pub fn reserve_tag(tags: &mut Option<Vec<Tag>>) -> Result<(), AllocError>
    ensures same { tags_of tags.new ≡ tags_of tags.old }
    ensures room { OnOk result (HasRoom tags.new) }
{
    match tags {
        Some(tags) => tags.reserve(1),
        None => Ok(()),
    }
}

/// Appends a tag to those that are kept.
pub fn record_tag(tags: &mut Option<Vec<Tag>>, tag: Tag)
    requires { HasRoom tags.old }
    ensures { tags_of tags.new ≡ option_map (λ kept. kept ++ tag ∷ []) (tags_of tags.old) }
{
    if let Some(tags) = tags {
        tags.push_reserved(tag);
    }
}

/// Keeps the first `count` tags.
pub fn cut_tags(tags: &mut Option<Vec<Tag>>, count: usize)
    ensures { tags_of tags.new ≡ option_map (take count) (tags_of tags.old) }
{
    if let Some(tags) = tags {
        tags.truncate(count);
    }
}

/// Returns whether a tag is below the one before it.
pub fn tags_out_of_order(tags: &[Tag]) -> bool
    ensures { IsUnless result (AreAscending IsTagBelow tags.now) }
{
    let mut rest = tags;
    while let [first, after @ ..] = rest {
        if is_out_of_order_at(*first, after) {
            return true;
        }
        rest = after;
    }
    false
}

/// Returns whether the tag that follows is below this one.
fn is_out_of_order_at(tag: Tag, after: &[Tag]) -> bool
    ensures { IsWhether result (FallsAt tag after.now) }
{
    match after {
        [next, ..] => *next < tag,
        [] => false,
    }
}
