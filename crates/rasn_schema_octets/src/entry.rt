//! Reads and writes schemas as octets.
ghost use Rattle.std.specs.Prelude.{◌≡◌, ◌⊎◌, ◌<◌, length, IfOk, IfErr, None};
ghost use Rattle.rasn_types.specs.declared.types.codec.Codec.TheVariants.{Der};
ghost use Rattle.rasn_types.specs.Errors.{IsOutOfMemory};
ghost use Rattle.rasn.specs.Headline.{Identifies};
ghost use Rattle.rasn.specs.Refusals.{FailsAlone};
ghost use Rattle.rasn_schema_octets.specs.Shapes.{octets_shape};
ghost use Rattle.rasn_schema_octets.specs.Forms.{schema_form_tree};
ghost use Rattle.rasn_schema_octets.specs.Mirrors.{Forms, MakesNames, FormsNames};
ghost use Rattle.rasn_schema_octets.specs.Octets.{schema_tree, IsSchemaOctets, IsRead, IsNoValue, IsReadFault, HasError, IsWrongOr, IsWriteFault};
ghost use Rattle.rasn_schema_octets.specs.Shallow.{Every, IsShallowType};

use crate::fault::{ReadFault, Stop, WriteFault};
use crate::form::SchemaForm;
use crate::list::{forms_of, parts_of};
use crate::locate::read_fault;
use crate::name::NameForm;
use rasn::error::DecodeError;
use rasn::types::{AsnType, ContextTag, Implicit};
use rasn::{Decode, der};
use rasn_schema::{Schema, TypeId, TypeName};
use std::alloc::Global;

/// The version of the form.
pub const VERSION: u32 = 1;

/// A schema with the number of the type that was asked for.
#[derive(Drop)]
pub struct Compiled {
    /// The type and the types that it is made of, with the names of those that have one.
    pub schema: Schema,
    /// The number of the type.
    pub root: TypeId,
    /// The number of constraints that the schema doesn't check.
    pub unchecked: usize,
}

/// Returns the schema whose octets these are.
///
/// # Errors
/// - `Octets` if DER doesn't read them as a value of the form, with the first part that can't be
///   read.
/// - `Version` if they are of another version of the form.
/// - `NoRoot` if the number of the type that was asked for isn't that of a type.
/// - `Default` if a default isn't one value, or is nested too deep.
/// - `Rule` if the types break a rule of schemas.
///
/// # Examples
/// ```
/// // What `write` returned for a schema, perhaps in another program
/// let compiled = rasn_schema_octets::read(alloc, octets)?;
/// let (value, rest) = rasn_dynamic::decode_with_remainder(
///     alloc, Codec::Der, &compiled.schema, compiled.root, message,
/// )?;
/// ```
pub fn read(alloc: Global, octets: &[u8]) -> Result<Compiled, ReadFault>
    ensures ok { IfOk result (λ c. IsSchemaOctets c.schema c.root c.unchecked octets.now) }
    ensures root { IfOk result (λ c. c.root.0 < length c.schema.types.items) }
    ensures shallow { IfOk result (λ c. Every IsShallowType c.schema.types.items) }
    ensures fault { IfErr result (IsReadFault octets.now) }
    ensures error { IfErr result (HasError (FailsAlone (⟦<SchemaForm as Decode>⟧.errors ⟦<SchemaForm as AsnType>⟧.TAG ⟦<SchemaForm as AsnType>⟧.CONSTRAINTS) Der octets_shape octets.now)) }
{
    match read_form(alloc, octets) {
        Ok(form) => checked(alloc, form),
        Err(error) => Err(read_fault(alloc, octets, error)),
    }
}

/// Returns the value of the form that the octets are.
fn read_form(alloc: Global, octets: &[u8]) -> Result<SchemaForm, DecodeError>
    ensures ok { IfOk result (λ f. IsRead octets.now (schema_form_tree f)) }
    ensures refused { IfErr result (λ e. IsOutOfMemory e.kind ⊎ IsNoValue octets.now) }
    ensures errors { IfErr result (FailsAlone (⟦<SchemaForm as Decode>⟧.errors ⟦<SchemaForm as AsnType>⟧.TAG ⟦<SchemaForm as AsnType>⟧.CONSTRAINTS) Der octets_shape octets.now) }
    ensures rules { IfErr result (λ e. e.codec ≡ Der) }
{
    der::decode(alloc, octets)
}

/// Returns the schema that a value of the form says.
fn checked(alloc: Global, form: SchemaForm) -> Result<Compiled, ReadFault>
    ensures ok { IfOk result (λ c. schema_tree c.schema c.root c.unchecked ≡ schema_form_tree form) }
    ensures root { IfOk result (λ c. c.root.0 < length c.schema.types.items) }
    ensures shallow { IfOk result (λ c. Every IsShallowType c.schema.types.items) }
    ensures fault { IfErr result (IsWrongOr (schema_form_tree form)) }
{
    let SchemaForm {
        version,
        root,
        unchecked,
        names,
        types,
    } = form;
    if version != VERSION {
        return Err(ReadFault::Version { version });
    }
    if root >= types.len() {
        return Err(ReadFault::NoRoot {
            root: TypeId(root),
            types: types.len(),
        });
    }
    let types = parts_of(alloc, types)?;
    let names = names_of(alloc, names)?;
    match Schema::new(types) {
        Ok(schema) => Ok(Compiled {
            schema: with_names(schema, names),
            root: TypeId(root),
            unchecked,
        }),
        Err(error) => Err(ReadFault::Rule(error)),
    }
}

/// Returns the names of types that were read.
fn names_of(
    alloc: Global,
    names: Option<Implicit<ContextTag<0>, Vec<NameForm>>>,
) -> Result<Option<Vec<TypeName>>, Stop>
    ensures { MakesNames names result }
{
    match names {
        Some(names) => Ok(Some(parts_of(alloc, names.into_inner())?)),
        None => Ok(None),
    }
}

/// Returns the schema with these names.
fn with_names(schema: Schema, names: Option<Vec<TypeName>>) -> Schema
    requires { schema.names ≡ None }
    ensures types { result.types ≡ schema.types }
    ensures names { result.names ≡ names }
{
    match names {
        Some(names) => schema.with_names(names),
        None => schema,
    }
}

/// Returns the octets of a schema, with the number of one of its types, and how many constraints it
/// doesn't check.
///
/// # Errors
/// - `NoRoot` if the number isn't that of a type.
/// - `DeepDefault` if a default is nested too deep.
/// - `Encode` if what the schema says has no octets in DER, as a default that is an instant of a
///   year that has no four digits.
///
/// # Examples
/// ```
/// let compiled = modules.schema(alloc, "PKIX1Explicit88", "Certificate")?;
/// let octets = rasn_schema_octets::write(
///     alloc, &compiled.schema, compiled.root, compiled.unchecked,
/// )?;
/// ```
pub fn write(
    alloc: Global,
    schema: &Schema,
    root: TypeId,
    unchecked: usize,
) -> Result<Vec<u8>, WriteFault>
    ensures ok { IfOk result (λ octets. IsSchemaOctets schema.now root unchecked octets.items) }
    ensures root { IfOk result (λ octets. root.0 < length schema.now.types.items) }
    ensures identifies { IfOk result (λ octets. Identifies octets_shape (schema_tree schema.now root unchecked) octets.items) }
    ensures fault { IfErr result (IsWriteFault schema.now root unchecked) }
{
    if root.0 >= schema.types.len() {
        return Err(WriteFault::NoRoot {
            root,
            types: schema.types.len(),
        });
    }
    let form = form_of(alloc, schema, root, unchecked)?;
    match der::encode(alloc, &form) {
        Ok(octets) => Ok(octets),
        Err(error) => {
            if error.is_out_of_memory() {
                return Err(WriteFault::OutOfMemory);
            }
            Err(WriteFault::Encode(error))
        }
    }
}

/// Returns the value of the form that says what a schema says.
fn form_of(
    alloc: Global,
    schema: &Schema,
    root: TypeId,
    unchecked: usize,
) -> Result<SchemaForm, Stop>
    ensures { Forms schema_form_tree (schema_tree schema.now root unchecked) (Every IsShallowType schema.now.types.items) result }
{
    let names = names_form(alloc, &schema.names)?;
    let types = forms_of(alloc, &schema.types)?;
    Ok(SchemaForm {
        version: VERSION,
        root: root.0,
        unchecked,
        names,
        types,
    })
}

/// Returns what is written of the names of types.
fn names_form(
    alloc: Global,
    names: &Option<Vec<TypeName>>,
) -> Result<Option<Implicit<ContextTag<0>, Vec<NameForm>>>, Stop>
    ensures { FormsNames names.now result }
{
    match names {
        Some(names) => Ok(Some(Implicit::new(forms_of(alloc, names)?))),
        None => Ok(None),
    }
}
