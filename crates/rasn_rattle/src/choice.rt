//! A CHOICE (X.680 29) as an enum.
use crate::alternatives::Placed;
use crate::beyond::ERRORS_OF_CHOICE;
use crate::calls::{called, push_read_arm, push_write_arm};
use crate::layout::{comment, push_alias};
use crate::plan::Plan;
use crate::template::{Values, push_separator, push_times};
use rasn_schema::TypeId;
use std::alloc::{AllocError, Global};

/// An enum with its impls.
const CHOICE: &str = "@head@@imports@
@doc@@in_place@#[derive(Debug, PartialEq, Eq, Drop)]
pub enum @Name@ {
@variants@}

@read_types@impl AsnType for @Name@ {
    ghost use Rattle.std.specs.Prelude.{refl};
    ghost use Rattle.rasn_types.specs.Shapes.{@choice@, chosen};
    ghost use Rattle.rasn_types.specs.Tags.{eoc};
    ghost use Rattle.rasn_types.specs.Trees.{unconstrained};
    ghost use Rattle.@crate@.specs.declared.@file@.@Name@.TheVariants.{@names@};

    ghost TAG = { eoc };

    const TAG: Tag = Tag::EOC;

    ghost CONSTRAINTS = { unconstrained };

    const CONSTRAINTS: Constraints = Constraints::NONE;

    ghost shape = { @choice@ ⟦<Alternatives as DecodeAlternatives>⟧.parts };

    ghost tree = { elim [ @trees@ ] };

    ghost own = { refl };
}

impl LawfulEq for @Name@ {
    ghost use Rattle.rasn_types.specs.Deciding.{deciding};
    ghost use Rattle.rasn_types.specs.Equality.{choice_decided, alternative};
    ghost use Rattle.@crate@.specs.contracts.@file@.@Name@.{enum as own_enum};
@laws@
    ghost decides = { choice_decided own_enum _ _ @decided@ };
}

impl Present for @Name@ {
    ghost use Rattle.rasn_types.specs.Equality.{chosen_not_absent};
    ghost use Rattle.@crate@.specs.declared.@file@.@Name@.TheVariants.{@names@};

    ghost present = { elim [ @present@ ] };
}
@first@
impl Decode for @Name@ {
@errors@
    fn decode_with_tag_and_constraints(
        decoder: &mut Decoder<'_>,
        _tag: Tag,
        _constraints: &Constraints,
    ) -> Result<@Name@, DecodeError> {
        match decoder.read_choice::<Alternatives>(\"@Name@\") {
@read@            Err(error) => Err(error),
        }
    }
}

@write_types@impl Encode for @Name@ {
    fn encode_with_tag_and_constraints(
        &self,
        encoder: &mut Encoder,
        _tag: Tag,
        _constraints: &Constraints,
        _identifier: Identifier,
    ) -> Result<(), EncodeError> {
        match self {
@write@        }
    }

    fn is_present(&self) -> bool {
        true
    }
}
";

/// The tags by which a CHOICE is distinguished from other parts.
const FIRST: &str = "
impl FirstTags for @Name@ {
    fn is_first_tag(tag: Tag) -> bool {
        <Alternatives as DecodeAlternatives>::has_tag(tag)
    }
}
";

/// An alternative.
#[derive(Drop)]
pub(crate) struct Branch<'schema> {
    /// The number of the CHOICE that it is an alternative of.
    choice: usize,
    /// Its name in the notation.
    name: &'schema str,
    /// Its type.
    type_id: TypeId,
    /// The comment on an open type in it, if there is one.
    reason: &'static str,
    /// The name of its variant.
    pub(crate) variant: String,
    /// The Rattle type of its value.
    pub(crate) expression: String,
    /// Whether its values hold a GeneralizedTime.
    holds_time: bool,
    /// Whether it is the unknown alternative.
    is_unknown: bool,
}

impl<'schema> Plan<'schema> {
    /// Returns the text of the file of a CHOICE.
    pub(crate) fn choice_text(&self, id: usize) -> Result<String, AllocError> {
        let placed = self.placed_of(id)?;
        let branches = self.branches_of(id, placed.as_slice())?;
        let branches = branches.as_slice();
        let is_open = branches.last().is_some_and(|last| last.is_unknown);
        let laws = self.laws_of(id)?;
        let (name, _file) = self.names_of(id);
        let mut values = self.values_of(id)?;
        values.add_str("choice", if is_open { "open_choice" } else { "choice" });
        values.add("first", self.first_tags_text(name, is_open));
        values.add("imports", self.imports_of(&laws, false, branches.len() > 1));
        values.add("in_place", self.in_place_text(placed.as_slice()));
        values.add("beyond", self.beyond_of_choice(id, branches));
        let errors = values.filled(ERRORS_OF_CHOICE);
        values.add("errors", errors);
        self.add_branches(&mut values, name, branches);
        let search = laws.search.as_str();
        values.add("decided", decided_text(self.alloc, branches, search));
        values.add("laws", Ok(laws.uses));
        values.filled(CHOICE)
    }

    /// Adds what a CHOICE with this name has of its alternatives.
    fn add_branches(&self, values: &mut Values, name: &str, branches: &[Branch<'_>]) {
        values.add("variants", self.variants_text(branches));
        values.add("names", names_text(self.alloc, branches));
        values.add("read_types", types_text(self.alloc, branches, false));
        values.add("write_types", types_text(self.alloc, branches, true));
        values.add("trees", trees_text(self.alloc, branches));
        values.add("present", present_text(self.alloc, branches));
        values.add("read", read_text(self.alloc, name, branches));
        values.add("write", write_text(self.alloc, name, branches));
    }

    /// Returns the alternatives of a CHOICE.
    pub(crate) fn branches_of(
        &self,
        id: usize,
        placed: &[Placed<'schema>],
    ) -> Result<Vec<Branch<'schema>>, AllocError> {
        let mut branches = Vec::new(self.alloc);
        let variants = self.variants_of(placed)?;
        for (alternative, variant) in placed.iter().zip(variants) {
            branches.push(self.branch_of(id, alternative, variant)?)?;
        }
        Ok(branches)
    }

    /// Returns an alternative of a CHOICE, which has a variant with this name unless it is the
    /// unknown one.
    fn branch_of(
        &self,
        id: usize,
        alternative: &Placed<'schema>,
        variant: String,
    ) -> Result<Branch<'schema>, AllocError> {
        let is_unknown = !self.has_tag(alternative.type_id);
        let variant = if is_unknown {
            String::from_str(self.alloc, "Unknown")?
        } else {
            variant
        };
        Ok(Branch {
            choice: alternative.choice,
            name: alternative.name,
            type_id: alternative.type_id,
            reason: self.leads_back(id, alternative.type_id)?,
            variant,
            expression: self.expression(id, alternative.type_id)?,
            holds_time: self.holds_time(id, alternative.type_id.0)?,
            is_unknown,
        })
    }

    /// Returns a comment on the alternatives that are a CHOICE, if there are any.
    fn in_place_text(&self, placed: &[Placed<'_>]) -> Result<String, AllocError> {
        let mut names = String::new(self.alloc);
        let mut last = "";
        for alternative in placed {
            if alternative.outer != last && !alternative.outer.is_empty() {
                push_separator(&mut names, ", ")?;
                write!(names, "`{}`", alternative.outer)?;
            }
            last = alternative.outer;
        }
        if names.is_empty() {
            return Ok(names);
        }
        let text = format!(in self.alloc;
            "An alternative that is a CHOICE is written as its alternatives: {names}."
        )?;
        let lines = comment(self.alloc, "///", text.as_str())?;
        format!(in self.alloc; "///\n{lines}")
    }

    /// Returns the impl by which a CHOICE is distinguished from other parts, unless any tag may
    /// begin it.
    fn first_tags_text(&self, name: &str, is_open: bool) -> Result<String, AllocError> {
        if is_open {
            return Ok(String::new(self.alloc));
        }
        let mut values = Values::new(self.alloc);
        values.add_str("Name", name);
        values.filled(FIRST)
    }

    /// Returns what the values of the alternatives keep.
    pub(crate) fn kept_text(&self, branches: &[Branch<'_>]) -> Result<String, AllocError> {
        let mut text = String::new(self.alloc);
        for branch in branches {
            let (variant, ty) = (branch.variant.as_str(), branch.expression.as_str());
            self.push_kept(&mut text, variant, ty, branch.holds_time)?;
        }
        Ok(text)
    }

    /// Returns the variants, with the notation of each.
    fn variants_text(&self, branches: &[Branch<'_>]) -> Result<String, AllocError> {
        let mut text = String::new(self.alloc);
        for branch in branches {
            let notation = self.part_notation(branch.choice, branch.name, branch.type_id)?;
            let (variant, ty) = (branch.variant.as_str(), branch.expression.as_str());
            writeln!(text, "{notation}{}    {variant}({ty}),", branch.reason)?;
        }
        Ok(text)
    }
}

/// Returns the names of the variants.
pub(crate) fn names_text(alloc: Global, branches: &[Branch<'_>]) -> Result<String, AllocError> {
    let mut text = String::new(alloc);
    for branch in branches {
        push_separator(&mut text, ", ")?;
        text.push_str(branch.variant.as_str())?;
    }
    Ok(text)
}

/// Returns the trees of the alternatives' values.
fn trees_text(alloc: Global, branches: &[Branch<'_>]) -> Result<String, AllocError> {
    let mut text = String::new(alloc);
    for (index, branch) in branches.iter().enumerate() {
        let (variant, ty) = (branch.variant.as_str(), branch.expression.as_str());
        push_separator(&mut text, " | ")?;
        write!(text, "{variant} x ↦ chosen {index} ")?;
        write!(text, "(⟦<{ty} as AsnType>⟧.tree x)")?;
    }
    Ok(text)
}

/// Returns that no alternative is absent.
fn present_text(alloc: Global, branches: &[Branch<'_>]) -> Result<String, AllocError> {
    let mut text = String::new(alloc);
    for branch in branches {
        push_separator(&mut text, " | ")?;
        write!(text, "{} x ↦ chosen_not_absent", branch.variant.as_str())?;
    }
    Ok(text)
}

/// Returns the laws of `==` of the alternatives, each of which is found by the same search.
fn decided_text(
    alloc: Global,
    branches: &[Branch<'_>],
    search: &str,
) -> Result<String, AllocError> {
    let mut text = String::new(alloc);
    for _branch in branches {
        write!(text, "(alternative (λ x. x.0) ({search}), ")?;
    }
    text.push_str("tt")?;
    push_times(&mut text, ")", branches.len())?;
    Ok(text)
}

/// Returns the arms that read the alternatives.
fn read_text(alloc: Global, name: &str, branches: &[Branch<'_>]) -> Result<String, AllocError> {
    let mut text = String::new(alloc);
    for (index, branch) in branches.iter().enumerate() {
        let words = words_of(alloc, Some("Ok("), index, branches)?;
        let place = called(alloc, words.as_slice())?;
        let variant = format!(in alloc; "{name}::{}", branch.variant.as_str())?;
        push_read_arm(&mut text, place.as_str(), variant.as_str())?;
    }
    Ok(text)
}

/// Returns the arms that write the alternatives.
fn write_text(alloc: Global, name: &str, branches: &[Branch<'_>]) -> Result<String, AllocError> {
    let mut text = String::new(alloc);
    for (index, branch) in branches.iter().enumerate() {
        let words = words_of(alloc, None, index, branches)?;
        let pattern = format!(in alloc; "{name}::{}(value)", branch.variant.as_str())?;
        push_write_arm(&mut text, pattern.as_str(), words.as_slice())?;
    }
    Ok(text)
}

/// Returns the calls around the value of an alternative, as those of `Other(This(value))`, within
/// the first one, if there is one.
fn words_of(
    alloc: Global,
    first: Option<&'static str>,
    index: usize,
    branches: &[Branch<'_>],
) -> Result<Vec<&'static str>, AllocError> {
    let mut words = Vec::new(alloc);
    if let Some(first) = first {
        words.push(first)?;
    }
    for _ in 0..index {
        words.push("Other(")?;
    }
    let is_last = index.saturating_add(1) == branches.len();
    let is_unknown = branches.get(index).is_some_and(|branch| branch.is_unknown);
    if !is_unknown {
        words.push(if is_last { "Last(" } else { "This(" })?;
    }
    Ok(words)
}

/// Returns the types of the alternatives, each with those after it, by which they are read or
/// written.
fn types_text(
    alloc: Global,
    branches: &[Branch<'_>],
    is_written: bool,
) -> Result<String, AllocError> {
    let (way, name, reference, life) = if is_written {
        ("written", "Written", "&'a ", "<'a>")
    } else {
        ("read", "Alternatives", "", "")
    };
    let mut text = format!(in alloc; "/// The alternatives, as they are {way}.\n")?;
    let mut own = format!(in alloc; "{name}{life}")?;
    for (index, branch) in branches.iter().enumerate() {
        let number = index.saturating_add(1);
        let ty = format!(in alloc; "{reference}{}", branch.expression.as_str())?;
        let next = format!(in alloc; "{name}{number}{life}")?;
        if number < branches.len() {
            push_alias(
                &mut text,
                own.as_str(),
                "OneOf",
                &[ty.as_str(), next.as_str()],
            )?;
        } else if branch.is_unknown {
            writeln!(text, "type {own} = {ty};")?;
        } else {
            push_alias(&mut text, own.as_str(), "Last", &[ty.as_str()])?;
        }
        text.push('\n')?;
        own = next;
    }
    Ok(text)
}
