//! Types that keep the rules of X.680.
ghost use Rattle.rasn_schema.specs.Schemas.{IsSchema};
ghost use Rattle.rasn_schema.specs.SchemaProps.{schema_prop};

use crate::defaults::first_unfit_default;
use crate::error::SchemaError;
use crate::named::{TypeName, type_named};
use crate::rules::{first_choice_fault, first_other_fault};
use crate::type_id::TypeId;
use crate::types::Type;
use crate::value::Value;
use crate::view::View;

/// Types that refer to one another by number, and whose values can be distinguished by their tags,
/// however deep they are nested.
#[derive(Drop)]
pub struct Schema {
    /// The types.
    pub types: Vec<Type>,
    /// The names of types, if there are some.
    pub names: Option<Vec<TypeName>>,
    pub ghost lawful: { IsSchema types.items } by { schema_prop types.items },
}

impl Schema {
    ghost use Rattle.std.specs.Prelude.{◌≡◌, IfOk, IfErr, MatchOption, Some, ℕ};
    ghost use Rattle.rasn_schema.specs.Named.{IsFirstNamed, IsUnnamed};
    ghost use Rattle.rasn_types.specs.declared.types.codec.Codec.{Codec};
    ghost use Rattle.rasn_schema.specs.Shapes.{shape_of_type, IsReadable};
    ghost use Rattle.rasn_schema.specs.Depth.{AreDeep, AreReadAlike};
    ghost use Rattle.rasn_schema.specs.Schemas.{HaveFitDefaults};
    ghost use Rattle.rasn_schema.specs.Faults.{IsFault};

    /// Checks each type once and returns the schema of the types.
    ///
    /// # Errors
    /// Returns the first rule that a type breaks; CHOICEs are checked before other types, and
    /// whether defaults are values of their types last. The types are dropped.
    ///
    /// # Examples
    /// ```
    /// // One type, BOOLEAN, which has the number 0
    /// let mut types = Vec::new(alloc);
    /// types.push(Type::Leaf {
    ///     kind: LeafKind::Boolean,
    ///     tag: Tag::BOOL,
    ///     constraints: Constraints::NONE,
    ///     names: Vec::new(alloc),
    /// })?;
    /// let schema = Schema::new(types)?;
    /// ```
    pub fn new(types: Vec<Type>) -> Result<Schema, SchemaError>
        ensures ok { IfOk result (λ schema. schema.types ≡ types) }
        ensures names { IfOk result (λ schema. schema.names ≡ None) }
        ensures fault { IfErr result (λ error. IsFault types.items error) }
        ensures exact { IfErr result (λ error. IsSchema types.items → ⊥) }
    {
        let levels = types.len() + 1;
        if let Some(fault) = first_choice_fault(types.as_slice(), levels) {
            return Err(fault);
        }
        if let Some(fault) = first_other_fault(types.as_slice(), levels) {
            return Err(fault);
        }
        if let Some(fault) = first_unfit_default(types.as_slice()) {
            return Err(fault);
        }
        Ok(Schema { types, names: None })
    }

    /// Returns the types. Each is lawful, or unknown values, however deep it is read. How deep
    /// types are followed makes no difference to what is read, from the depth on to which values
    /// are read. Each default is a value of its component's type.
    pub fn types(&self) -> &[Type]
        ensures types { result.now ≡ self.now.types.items }
        ensures readable { (levels id : ℕ) → IsReadable (shape_of_type result.now levels id) }
        ensures deep { (rule : Codec) (i j depth id : ℕ) → AreDeep result.now depth i → AreDeep result.now depth j → AreReadAlike rule depth (shape_of_type result.now i id) (shape_of_type result.now j id) }
        ensures defaults { HaveFitDefaults result.now }
    {
        self.types.as_slice()
    }

    /// Returns the schema with these names of types.
    pub fn with_names(self, names: Vec<TypeName>) -> Schema
        ensures types { result.types ≡ self.types }
        ensures names { result.names ≡ Some names }
    {
        let Schema { types, .. } = self;
        Schema {
            types,
            names: Some(names),
        }
    }

    /// Returns the number of the first type with this name, if there is one.
    pub fn type_named(&self, name: &str) -> Option<TypeId>
        ensures { MatchOption result (IsUnnamed self.now.names name.now) (λ id. (names : _) × (self.now.names ≡ Some names) × IsFirstNamed names.items name.now id) }
    {
        match &self.names {
            Some(names) => type_named(names, name),
            None => None,
        }
    }

    /// Returns a value with its type, whose parts are found by index and by name.
    pub fn view<'view, 'input>(
        &'view self,
        type_id: TypeId,
        value: &'view Value<'input>,
    ) -> View<'view, 'input>
        ensures schema { result.schema.now ≡ self.now }
        ensures type_id { result.type_id ≡ type_id }
        ensures value { result.value.now ≡ value.now }
    {
        View {
            schema: self,
            type_id,
            value,
        }
    }
}
