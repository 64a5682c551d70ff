//! The keys that distinguish groups.

ghost use Rattle.std.specs.Prelude.{◌≡◌, ◌+◌, ◌<◌, ◌≤◌, [], ◌∷◌, ◌++◌, map, IfOk, OnOk, Option, is_some, vec_len, vec_capacity};
ghost use Rattle.std.specs.List.{flat_map};
ghost use Rattle.std.specs.Option.{option_to_list};
ghost use Rattle.wasm_spec.specs.TypeData.{heap_of, reference_of, value_of, storage_of, field_of, value_edges, storage_edges, field_edges, function_edges, composite_edges, reference_edges, sub_type_edges, group_edges};
ghost use Rattle.form_reader.specs.Views.{function_of, composite_of, sub_type_of};
ghost use Rattle.form_types.specs.Codes.{ended, value_code, storage_code, field_codes, function_codes, fields_codes, composite_codes, reference_code, head_codes, sub_type_codes, group_codes};
ghost use Rattle.std.specs.Cmp.Lexicographic.{bytes_decides};
ghost use Rattle.std.specs.Hash as fed;
ghost use Rattle.std.specs.Hash.{same_Alike, on_Alike, and-Alike, items_Alike};
ghost use Rattle.wasm_spec.specs.contracts.types.UnpackedIndexHash.TheImpl.Laws as index_hash;
ghost use Rattle.form_types.specs.Keys.{key_of, AddsToKey};

use crate::codes::{END, I32, below_i32, flag, named_by, storage_code, value_code};
use form_reader::{CompositeInnerType, FuncType, SubType};
use std::alloc::{AllocError, Global};
use std::hash::{Hash, Hasher};
use wasm_spec::{FieldType, HeapType, StorageType, UnpackedIndex, ValType};

/// A group as bytes and references.
///
/// For look-up, a reference is a position in the group or the id of an earlier type: groups that
/// are equal, given the types before them, have one key. When the key is first made, a reference is
/// the one that was read.
#[derive(Drop, PartialEq, Eq)]
pub struct CanonicalGroup {
    /// All of the group but what its references name.
    pub frame: Vec<u8>,
    /// What they name, in order.
    pub references: Vec<UnpackedIndex>,
}

/// The frame is hashed in one write, not byte by byte.
impl Hash for CanonicalGroup {
    ghost hash_input = { λ g. (g.frame.items ∷ []) ++ fed.slice ⟦<UnpackedIndex as Hash>⟧.hash_input g.references.items };

    ghost respects_eq = { (and-Alike (on_Alike (λ g. g.frame.items) (same_Alike (λ bytes. bytes ∷ []) bytes_decides))
        (on_Alike (λ g. g.references.items) (items_Alike (record { fed = index_hash.respects_eq-law })))).fed };

    fn hash<H: Hasher>(&self, state: &mut H) {
        state.write(&self.frame);
        self.references.hash(state);
    }
}

impl CanonicalGroup {
    /// The key of no members.
    pub fn new(alloc: Global) -> CanonicalGroup
        ensures { key_of result ≡ record { codes = []; references = [] } }
    {
        CanonicalGroup {
            frame: Vec::new(alloc),
            references: Vec::new(alloc),
        }
    }

    /// Removes all members.
    pub fn clear(&mut self)
        ensures { key_of self.new ≡ record { codes = []; references = [] } }
    {
        self.frame.clear();
        self.references.clear();
    }

    /// An equal key, with no more capacity than it needs.
    pub fn copied(&self, alloc: Global) -> Result<CanonicalGroup, AllocError>
        ensures { IfOk result (λ copy. key_of copy ≡ key_of self.now) }
    {
        let mut frame = Vec::with_capacity(alloc, self.frame.len())?;
        frame.extend_from_slice(&self.frame)?;
        let mut references = Vec::with_capacity(alloc, self.references.len())?;
        references.extend_from_slice(&self.references)?;
        Ok(CanonicalGroup { frame, references })
    }

    /// Adds the members of a group.
    pub fn add_group(&mut self, types: &[SubType]) -> Result<(), AllocError>
        ensures { OnOk result (AddsToKey self.old self.new (group_codes (map sub_type_of types.now)) (group_edges (λ i. i) (map sub_type_of types.now))) }
    {
        for ty in types {
            self.add_sub_type(ty)?;
        }
        Ok(())
    }

    fn add_sub_type(&mut self, ty: &SubType) -> Result<(), AllocError>
        ensures { OnOk result (AddsToKey self.old self.new (sub_type_codes (sub_type_of ty.now)) (sub_type_edges (λ i. i) (sub_type_of ty.now))) }
    {
        self.add_head(ty)?;
        self.add_composite(&ty.composite)
    }

    fn add_head(&mut self, ty: &SubType) -> Result<(), AllocError>
        ensures { OnOk result (AddsToKey self.old self.new (head_codes (sub_type_of ty.now)) (option_to_list ty.now.supertype)) }
    {
        self.frame.push(flag(ty.is_final))?;
        self.frame.push(flag(ty.supertype.is_some()))?;
        // No type that is read is shared.
        self.frame.push(flag(false))?;
        if let Some(index) = ty.supertype {
            self.references.push(index)?;
        }
        Ok(())
    }

    fn add_composite(&mut self, composite: &CompositeInnerType) -> Result<(), AllocError>
        ensures { OnOk result (AddsToKey self.old self.new (composite_codes (composite_of composite.now)) (composite_edges (λ i. i) (composite_of composite.now))) }
    {
        match composite {
            CompositeInnerType::Func(function) => {
                self.frame.push(0x60)?;
                self.add_function(function)
            }
            CompositeInnerType::Array(field) => {
                self.frame.reserve(3)?;
                self.frame.push_reserved(0x5E);
                self.add_field(field)
            }
            CompositeInnerType::Struct(fields) => self.add_struct(fields),
            CompositeInnerType::Cont(function) => {
                self.frame.push(0x5D)?;
                self.references.push(*function)?;
                Ok(())
            }
        }
    }

    fn add_function(&mut self, function: &FuncType) -> Result<(), AllocError>
        ensures { OnOk result (AddsToKey self.old self.new (function_codes (function_of function.now)) (function_edges (λ i. i) (function_of function.now))) }
    {
        self.add_values(&function.params)?;
        self.add_values(&function.results)
    }

    /// Adds values, and the end mark.
    fn add_values(&mut self, values: &[ValType]) -> Result<(), AllocError>
        ensures { OnOk result (AddsToKey self.old self.new (ended (map value_code (map value_of values.now))) (flat_map (value_edges (λ i. i)) (map value_of values.now))) }
    {
        self.frame.reserve(values.len() + 1)?;
        for value in values {
            self.add_value(value)?;
        }
        self.frame.push_reserved(END);
        Ok(())
    }

    /// Adds a value, for which there is capacity. Most values are no references.
    #[inline(always)]
    fn add_value(&mut self, value: &ValType) -> Result<(), AllocError>
        requires { vec_len self.old.frame < vec_capacity self.old.frame }
        ensures adds { OnOk result (AddsToKey self.old self.new (value_code (value_of value.now) ∷ []) (value_edges (λ i. i) (value_of value.now))) }
        ensures len { vec_len self.new.frame ≡ vec_len self.old.frame + 1 }
        ensures capacity { vec_capacity self.new.frame ≡ vec_capacity self.old.frame }
    {
        let Some(below) = below_i32(value) else {
            return self.add_reference(value);
        };
        self.frame.push_reserved(I32 - below);
        Ok(())
    }

    /// As `add_value`, of a reference.
    fn add_reference(&mut self, value: &ValType) -> Result<(), AllocError>
        requires { vec_len self.old.frame < vec_capacity self.old.frame }
        ensures adds { OnOk result (AddsToKey self.old self.new (value_code (value_of value.now) ∷ []) (value_edges (λ i. i) (value_of value.now))) }
        ensures len { vec_len self.new.frame ≡ vec_len self.old.frame + 1 }
        ensures capacity { vec_capacity self.new.frame ≡ vec_capacity self.old.frame }
    {
        self.frame.push_reserved(value_code(value));
        if let Some(index) = named_by(value) {
            self.references.push(index)?;
        }
        Ok(())
    }

    fn add_struct(&mut self, fields: &[FieldType]) -> Result<(), AllocError>
        ensures { OnOk result (AddsToKey self.old self.new (0x5F ∷ fields_codes (map field_of fields.now)) (flat_map (field_edges (λ i. i)) (map field_of fields.now))) }
    {
        self.frame.reserve(2 * fields.len() + 2)?;
        self.frame.push_reserved(0x5F);
        for field in fields {
            self.add_field(field)?;
        }
        self.frame.push_reserved(END);
        Ok(())
    }

    /// Adds a field, for which there is capacity.
    fn add_field(&mut self, field: &FieldType) -> Result<(), AllocError>
        requires { vec_len self.old.frame + 2 ≤ vec_capacity self.old.frame }
        ensures adds { OnOk result (AddsToKey self.old self.new (field_codes (field_of field.now)) (field_edges (λ i. i) (field_of field.now))) }
        ensures len { vec_len self.new.frame ≡ vec_len self.old.frame + 2 }
        ensures capacity { vec_capacity self.new.frame ≡ vec_capacity self.old.frame }
    {
        self.frame.push_reserved(storage_code(&field.element_type));
        self.frame.push_reserved(flag(field.mutable));
        if let StorageType::Val(value) = &field.element_type {
            if let Some(index) = named_by(value) {
                self.references.push(index)?;
            }
        }
        Ok(())
    }
}
