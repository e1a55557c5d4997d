//! Proofs that the prover doesn't find by itself: of a CHOICE with many alternatives, and of an
//! ENUMERATED with many numbers.
ghost use Rattle.std.specs.Prelude.{◌≡◌, true};
ghost use Rattle.rasn_rattle.specs.Words.{is_name, is_word};

use crate::choice::Branch;
use crate::defaults::number_term;
use crate::kinds::is_extensible;
use crate::output::Answers;
use crate::plan::{Naming, Plan};
use crate::template::push_times;
use rasn_schema::{NamedNumber, Type};
use std::alloc::{AllocError, Global};

/// So many alternatives of a CHOICE, and so many numbers, need no answers.
const MOST: usize = 11;

/// What precedes the proofs of what is read, where numbers may be negative.
const READ: &str = "use Rattle.std.proofs.Common.{w8, w16, w32, w64}
use Rattle.std.proofs.lemmas.Int.{to_z-of_z}
";

/// What precedes the proof that a number is none of those with a name.
const NUMBERS: &str = "use Rattle.std.proofs.Common.{arith, pos, neg_ℤ, ℤ, ◌≡◌, List, [], ◌∷◌, refl}
use Rattle.std.proofs.lemmas.Int.{ints}
use Rattle.std.proofs.lemmas.List.Elements.{All-contains, All-cons, All-nil}

-- The number is none of those that have a name: each of them, from the last one on, is another.
pub returns-in_default : goal.returns-in_default
returns-in_default c = λ h.
    let P : ℤ → Type 0 = λ k. c.args.discriminant ≡ k → ⊥ in
";

impl Plan<'_> {
    /// Returns the answers of the functions of a type with these names.
    pub(crate) fn answers_of(
        &self,
        id: usize,
        naming: &Naming,
    ) -> Result<Vec<Answers>, AllocError> {
        if self.reason_against(id)?.is_some() || self.retagged.contains_key(&id) {
            return Ok(Vec::new(self.alloc));
        }
        let ty = self.type_of(id);
        match ty {
            Type::Choice { .. } => self.choice_answers(id, naming),
            Type::Enumerated { numbers, .. } => {
                self.number_answers(naming, "Enumerated", numbers)
            }
            Type::Leaf { names, .. } if is_extensible(ty) => {
                self.number_answers(naming, "NameEnumerated", names)
            }
            _ => Ok(Vec::new(self.alloc)),
        }
    }

    /// Returns the answers of a CHOICE, if it has many alternatives.
    fn choice_answers(&self, id: usize, naming: &Naming) -> Result<Vec<Answers>, AllocError> {
        let mut answers = Vec::new(self.alloc);
        let placed = self.placed_of(id)?;
        let branches = self.branches_of(id, placed.as_slice())?;
        if branches.len() > MOST {
            let read = read_answers(self.alloc, branches.as_slice())?;
            let read = self.answers_for(
                naming,
                "Decode",
                "decode_with_tag_and_constraints",
                read.as_str(),
            )?;
            let written = written_answers(self.alloc, branches.as_slice())?;
            let written = self.answers_for(
                naming,
                "Encode",
                "encode_with_tag_and_constraints",
                written.as_str(),
            )?;
            answers.push(read)?;
            answers.push(written)?;
        }
        Ok(answers)
    }

    /// Returns the answers of an enum of these numbers, whose name ends with this word, if there
    /// are many.
    fn number_answers(
        &self,
        naming: &Naming,
        word: &'static str,
        numbers: &[NamedNumber],
    ) -> Result<Vec<Answers>, AllocError>
        requires { is_name word.now ≡ true }
    {
        let mut answers = Vec::new(self.alloc);
        if numbers.len() > MOST {
            let text = none_of(self.alloc, numbers)?;
            answers.push(self.answers_for(naming, word, "from_discriminant", text.as_str())?)?;
        }
        Ok(answers)
    }

    /// Makes the answers for a function of a trait that a type implements.
    #[tactic(auto, using(crate::proofs::WordLetters::name_append))]
    fn answers_for(
        &self,
        naming: &Naming,
        of: &str,
        function: &'static str,
        text: &str,
    ) -> Result<Answers, AllocError>
        requires owner { is_name of.now ≡ true }
        requires function { is_word function.now ≡ true }
    {
        let mut owner = String::from_str(self.alloc, naming.rust.as_str())?;
        owner.push_str(of)?;
        let (crate_name, file) = (self.options.crate_name.as_str(), naming.file.as_str());
        let path = format!(in self.alloc; "proofs.{file}.{owner}.{function}")?;
        let text = format!(in self.alloc; "use Rattle.{crate_name}.{path}.Goals as goal\n{text}")?;
        Ok(Answers {
            owner,
            function,
            text,
        })
    }
}

/// Returns the proofs that what is read is an alternative's value: each pattern holds what was
/// read.
fn read_answers(alloc: Global, branches: &[Branch<'_>]) -> Result<String, AllocError> {
    let mut text = String::new(alloc);
    if branches.iter().any(has_sign) {
        text.push_str(READ)?;
    }
    let last = branches.len().saturating_sub(1);
    for (index, branch) in branches.iter().enumerate() {
        let mut path = String::from_str(alloc, "Ok")?;
        push_times(&mut path, "-Other", index)?;
        let mut depth = index;
        if index < last {
            path.push_str("-This")?;
            depth = depth.saturating_add(1);
        }
        let facts = facts_of(alloc, depth)?;
        let goal = format!(in alloc; "returns-in-{path}-clause-reads")?;
        write!(
            text,
            "\npub {goal} : goal.{goal}\n{goal} c =\n    let a = c.in-{path} in\n"
        )?;
        match signed_width(branch.expression.as_str()) {
            Some(width) => push_number_read(&mut text, facts.as_str(), width)?,
            None => writeln!(text, "    rw ({facts}) at c.read_choice.ensures.reads")?,
        }
    }
    Ok(text)
}

/// Returns whether the value of an alternative is a number that may be negative.
fn has_sign(branch: &Branch<'_>) -> bool {
    signed_width(branch.expression.as_str()).is_some()
}

/// Returns the width of a type of numbers that may be negative.
fn signed_width(ty: &str) -> Option<&'static str> {
    match ty {
        "i8" => Some("w8"),
        "i16" => Some("w16"),
        "i32" => Some("w32"),
        "i64" => Some("w64"),
        _ => None,
    }
}

/// Adds the proof that a number of a type of this width, of which these facts are known, is what
/// was read: it has so many bits.
fn push_number_read(text: &mut String, facts: &str, width: &str) -> Result<(), AllocError> {
    writeln!(
        text,
        "    let read = rw ({facts}) at c.read_choice.ensures.reads in"
    )?;
    writeln!(
        text,
        "    let held = rw ({facts}) at c.read_choice.type_inv in"
    )?;
    write!(
        text,
        "    rw (to_z-of_z {width} a.value (record {{ sfits = "
    )?;
    text.push_str("assumption held })) read\n")
}

/// Returns what is known of a value at this depth within variants: what each of them holds.
fn facts_of(alloc: Global, depth: usize) -> Result<String, AllocError> {
    let mut text = String::from_str(alloc, "a.is")?;
    let mut field = String::from_str(alloc, "a.field")?;
    for _ in 0..depth {
        field.push_str("-0")?;
        write!(text, ", {field}-is")?;
    }
    Ok(text)
}

/// Returns the proofs that what is written is the value of the alternative.
fn written_answers(alloc: Global, branches: &[Branch<'_>]) -> Result<String, AllocError> {
    let mut text = String::new(alloc);
    for (index, branch) in branches.iter().enumerate() {
        let variant = branch.variant.as_str();
        let mut call = String::from_str(alloc, "write_choice")?;
        if index > 0 {
            write!(call, "-in-{variant}")?;
        }
        for clause in ["ok", "refused"] {
            let goal = format!(in alloc; "returns-in-{variant}-clause-{clause}")?;
            write!(text, "\npub {goal} : goal.{goal}\n{goal} c =")?;
            writeln!(text, " rw c.in-{variant}.is c.{call}.ensures.{clause}")?;
        }
    }
    Ok(text)
}

/// Returns the proof that a number is none of these.
fn none_of(alloc: Global, numbers: &[NamedNumber]) -> Result<String, AllocError> {
    let mut text = String::from_str(alloc, NUMBERS)?;
    let mut next = numbers.len();
    write!(
        text,
        "    let from{next} : List ℤ = [] in\n    let none{next} = All-nil P in\n"
    )?;
    for named in numbers.iter().rev() {
        let index = next.saturating_sub(1);
        let number = number_term(alloc, named.number as i128)?;
        writeln!(
            text,
            "    let from{index} : List ℤ = {number} ∷ from{next} in"
        )?;
        write!(
            text,
            "    let none{index} = All-cons P ({number}) from{next} "
        )?;
        writeln!(text, "(λ e. omega (arith, ints, e)) none{next} in")?;
        next = index;
    }
    text.push_str("    All-contains P from0 c.args.discriminant none0 h refl\n")?;
    Ok(text)
}
