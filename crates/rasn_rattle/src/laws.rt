//! The laws of the types that a type is made of, which its own law follows from.
use crate::expression::open_word;
use crate::kinds::is_alias;
use crate::members::inner_of;
use crate::plan::Plan;
use crate::template::push_separator;
use rasn_schema::{Type, TypeId};
use rasn_types::types::Tag;
use std::alloc::AllocError;
use std::collections::{BTreeMap, BTreeSet};

/// The laws of `==` that a type's own law follows from.
#[derive(Drop)]
pub(crate) struct Laws {
    /// Where they are imported from, a line each.
    pub(crate) uses: String,
    /// The term that finds the law.
    pub(crate) search: String,
    /// The types of the crate that are imported, with commas between them.
    pub(crate) types: String,
    /// Those of other crates, with commas between them, by the names of these.
    pub(crate) foreign: BTreeMap<String, String>,
}

/// Which laws of a type are needed.
#[derive(Clone, Copy)]
struct Needs {
    /// That no value is absent.
    present: bool,
    /// That `==` is an equivalence.
    equivalence: bool,
}

/// The types that the types of parts name.
#[derive(Drop)]
struct Found {
    /// Those with laws, by their names, with their crates and files, and what is needed.
    own: BTreeMap<String, (String, String, Needs)>,
    /// All, as `crate::Account`.
    shown: BTreeSet<String>,
}

impl Plan<'_> {
    /// Returns the laws of the parts of a type.
    pub(crate) fn laws_of(&self, of: usize) -> Result<Laws, AllocError> {
        let mut found = Found {
            own: BTreeMap::new(self.alloc),
            shown: BTreeSet::new(self.alloc),
        };
        let ty = self.type_of(of);
        let members = self.placed_members_of(of)?;
        for member in &members {
            let needs = Needs {
                present: member.is_optional,
                equivalence: matches!(ty, Type::SetOf { .. }),
            };
            self.find_in(of, member.type_id, needs, &mut found)?;
        }
        self.laws_by(&found)
    }

    /// Finds the types that the type of a part names.
    fn find_in(
        &self,
        of: usize,
        id: TypeId,
        needs: Needs,
        found: &mut Found,
    ) -> Result<(), AllocError> {
        let mut id = id.0;
        let mut needs = needs;
        let mut is_shown = true;
        for _ in 0..self.schema.types().len() {
            id = self.twin_or_self(id);
            let ty = self.type_of(id);
            if self.names.contains_key(&id) {
                if self.leads_to(id, of)? {
                    return self.add_open(ty.tag(), needs, found);
                }
                self.add_name(id, needs, is_shown, found)?;
                is_shown = false;
                if let Some(twin) = self.retagged.get(&id) {
                    id = *twin;
                    continue;
                }
                if !is_alias(ty) {
                    return Ok(());
                }
            }
            needs = needs_within(ty, needs);
            match inner_of(ty) {
                Some(inner) => id = inner.0,
                None => return Ok(()),
            }
        }
        Ok(())
    }

    /// Adds a type with a name, which is imported if it is shown.
    fn add_name(
        &self,
        id: usize,
        needs: Needs,
        is_shown: bool,
        found: &mut Found,
    ) -> Result<(), AllocError> {
        let (name, _file) = self.names_of(id);
        if is_shown {
            let from = self.foreign_crate(id).unwrap_or("crate");
            found
                .shown
                .insert(format!(in self.alloc; "{from}::{name}")?)?;
        }
        let ty = self.type_of(id);
        let is_open = matches!(ty, Type::Choice { .. }) && self.reason_against(id)?.is_some();
        if is_alias(ty) || is_open || self.retagged.contains_key(&id) {
            return Ok(());
        }
        let crate_name = self.options.crate_name.as_str();
        let from = self.foreign_crate(id).unwrap_or(crate_name);
        self.add_laws(from, self.names_of(id), needs, found)
    }

    /// Adds what is needed of a type of a crate, whose name and file these are.
    fn add_laws(
        &self,
        from: &str,
        names: (&str, &str),
        needs: Needs,
        found: &mut Found,
    ) -> Result<(), AllocError> {
        let (name, file) = names;
        let mut all = needs;
        if let Some((_from, _file, known)) = found.own.get(name) {
            all.present = all.present || known.present;
            all.equivalence = all.equivalence || known.equivalence;
        }
        let from = String::from_str(self.alloc, from)?;
        let file = String::from_str(self.alloc, file)?;
        found
            .own
            .insert(String::from_str(self.alloc, name)?, (from, file, all))?;
        Ok(())
    }

    /// Adds the open type that is written for a type with this tag that leads back.
    fn add_open(&self, tag: Tag, needs: Needs, found: &mut Found) -> Result<(), AllocError> {
        let word = open_word(tag);
        let file = match word {
            "OpenSequence" => "open_sequence",
            "OpenSet" => "open_set",
            _ => return Ok(()),
        };
        found
            .shown
            .insert(format!(in self.alloc; "crate::{word}")?)?;
        self.add_laws(self.options.crate_name.as_str(), (word, file), needs, found)
    }

    /// Returns the laws of the types that were found.
    fn laws_by(&self, found: &Found) -> Result<Laws, AllocError> {
        let mut uses = String::new(self.alloc);
        let mut names = String::new(self.alloc);
        for (name, (from, file, needs)) in found.own.iter() {
            let from = format!(in self.alloc; "{from}.specs.contracts.{file}.{name}")?;
            let from = from.as_str();
            push_law(&mut uses, from, "LawfulEq", "decides", file, "law")?;
            write!(names, "{file}_law, ")?;
            if needs.present {
                push_law(&mut uses, from, "Present", "present", file, "present")?;
                write!(names, "{file}_present, ")?;
            }
            if needs.equivalence {
                push_law(&mut uses, from, "Eq", "laws", file, "equiv")?;
                write!(names, "{file}_equiv, ")?;
            }
        }
        Ok(Laws {
            uses,
            search: self.search_by(names.as_str())?,
            types: self.types_of("crate", found)?,
            foreign: self.foreign_types(found)?,
        })
    }

    /// Returns the term that finds a law by others, which have commas after them.
    fn search_by(&self, names: &str) -> Result<String, AllocError> {
        if names.is_empty() {
            return String::from_str(self.alloc, "Prim.search deciding depth 64");
        }
        format!(in self.alloc; "Prim.search ({names}deciding) depth 64")
    }

    /// Returns the types that are imported from a crate, with commas between them.
    fn types_of(&self, from: &str, found: &Found) -> Result<String, AllocError> {
        let mut types = String::new(self.alloc);
        for shown in found.shown.iter() {
            if let Some((crate_name, name)) = shown.as_str().split_once("::") {
                if crate_name == from {
                    push_separator(&mut types, ", ")?;
                    types.push_str(name)?;
                }
            }
        }
        Ok(types)
    }

    /// Returns the types that are imported from other crates, by the names of these.
    fn foreign_types(&self, found: &Found) -> Result<BTreeMap<String, String>, AllocError> {
        let mut foreign = BTreeMap::new(self.alloc);
        for shown in found.shown.iter() {
            if let Some((from, _name)) = shown.as_str().split_once("::") {
                if from != "crate" {
                    let types = self.types_of(from, found)?;
                    foreign.insert(String::from_str(self.alloc, from)?, types)?;
                }
            }
        }
        Ok(foreign)
    }
}

/// Adds the line that imports a law of a trait's impl, under the name of the type's file.
fn push_law(
    uses: &mut String,
    from: &str,
    trait_name: &str,
    law: &str,
    file: &str,
    end: &str,
) -> Result<(), AllocError> {
    write!(
        uses,
        "    ghost use Rattle.{from}{trait_name}.TheImpl.Laws."
    )?;
    writeln!(uses, "{{{law}-law as {file}_{end}}};")
}

/// Returns which laws of what a type is made of are needed for its own.
fn needs_within(ty: &Type, needs: Needs) -> Needs {
    match ty {
        Type::SetOf { .. } => Needs {
            present: false,
            equivalence: true,
        },
        Type::SequenceOf { .. } => Needs {
            present: false,
            equivalence: needs.equivalence,
        },
        _ => needs,
    }
}
