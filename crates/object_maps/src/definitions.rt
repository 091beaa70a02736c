//! The maps that the structs of a table define.

ghost use Rattle.std.specs.Prelude.{◌≡◌, ◌≢◌, [], Contains, IfOk, IfErr, OnOk};
ghost use Rattle.btf_records.specs.declared.error.BtfError.TheVariants.{OutOfMemory};
ghost use Rattle.ebpf_items.specs.Maps.{btf_words};
ghost use Rattle.object_maps.specs.Definitions.{HasDefinitionFault, defined, definition_of, inner_errors, inner_words, member_errors, errors, out_of_memory, with_member};

use crate::definition::{BtfDefinition, inner_def, named_error};
use crate::lookup::DefinitionError;
use crate::member::{Said, enter_said, member_said};
use crate::members::Members;
use btf_records::{BtfError, BtfMember};
use btf_tables::Btf;
use ebpf_items::BtfMapDef;
use std::alloc::Global;
use std::collections::BTreeMap;
use std::marker::Model;

/// The maps that the structs of a table define. Each struct is read once, however many maps it
/// defines.
#[derive(Drop)]
pub struct Definitions<'t, 'a> {
    table: &'t Btf<'a>,
    by_struct: BTreeMap<u32, BtfDefinition>,
    inner_by_struct: BTreeMap<u32, BtfMapDef>,
}

impl<'t, 'a> Model for Definitions<'t, 'a> {
    ghost use Rattle.btf_tables.specs.Tables.{Table};
    ghost use Rattle.object_maps.specs.Known.{AreDefined, AreInnerDefined};

    ghost Value = { Table };

    ghost view = { λ d. d.table.now };

    ghost invariant = { λ d.
        AreDefined d.table.now d.by_struct × AreInnerDefined d.table.now d.inner_by_struct };
}

impl<'t, 'a> Definitions<'t, 'a> {
    /// No struct is read yet.
    pub fn new(alloc: Global, table: &'t Btf<'a>) -> Definitions<'t, 'a>
        ensures { result ≡ table.now }
    {
        Definitions {
            table,
            by_struct: BTreeMap::new(alloc),
            inner_by_struct: BTreeMap::new(alloc),
        }
    }

    /// The table of the structs.
    pub fn table(&self) -> &'t Btf<'a>
        ensures { result.now ≡ self.now }
    {
        self.table
    }

    /// The words of the inner maps that are defined by the struct of this id.
    fn inner_def(&mut self, struct_id: u32) -> Result<BtfMapDef, DefinitionError>
        ensures value { IfOk result (λ def. btf_words def ≡ inner_words self.old struct_id) }
        ensures accepted { OnOk result (inner_errors self.old struct_id ≡ []) }
        ensures refused { IfErr result (λ e. e ≢ out_of_memory → Contains (inner_errors self.old struct_id) e) }
        ensures table { self.new ≡ self.old }
    {
        if let Some(def) = self.inner_by_struct.get(&struct_id) {
            return Ok(*def);
        }
        let def = inner_def(self.table, struct_id)?;
        self.inner_by_struct.insert(struct_id, def)?;
        Ok(def)
    }

    /// Applies a member of a map's struct to the map's definition.
    fn enter_member(
        &mut self,
        defined: &mut BtfDefinition,
        member: BtfMember,
    ) -> Result<(), DefinitionError>
        ensures value { OnOk result
            (definition_of defined.new ≡ with_member self.old (definition_of defined.old) member) }
        ensures accepted { OnOk result (member_errors self.old member ≡ []) }
        ensures refused { IfErr result (λ e. e ≢ out_of_memory → Contains (member_errors self.old member) e) }
        ensures table { self.new ≡ self.old }
    {
        let said = member_said(self.table, member)?;
        if let Said::Inner(id) = said {
            let inner = self.inner_def(id)?;
            defined.inner = Some(inner);
        }
        enter_said(&mut defined.def, said);
        Ok(())
    }

    /// Reads the struct of an id.
    fn read(&mut self, struct_id: u32) -> Result<BtfDefinition, DefinitionError>
        ensures value { IfOk result (λ d. definition_of d ≡ defined self.old struct_id) }
        ensures accepted { OnOk result (errors self.old struct_id ≡ []) }
        ensures refused { IfErr result (λ e. e ≢ out_of_memory → Contains (errors self.old struct_id) e) }
        ensures table { self.new ≡ self.old }
    {
        let mut defined = BtfDefinition {
            def: BtfMapDef::default(),
            inner: None,
        };
        for member in Members::new(self.table, struct_id) {
            self.enter_member(&mut defined, member)?;
        }
        Ok(defined)
    }

    /// The map that is defined by the struct of this id.
    fn of_struct(&mut self, struct_id: u32) -> Result<BtfDefinition, DefinitionError>
        ensures value { IfOk result (λ d. definition_of d ≡ defined self.old struct_id) }
        ensures accepted { OnOk result (errors self.old struct_id ≡ []) }
        ensures refused { IfErr result (λ e. e ≢ out_of_memory → Contains (errors self.old struct_id) e) }
        ensures table { self.new ≡ self.old }
    {
        if let Some(definition) = self.by_struct.get(&struct_id) {
            return Ok(*definition);
        }
        let definition = self.read(struct_id)?;
        self.by_struct.insert(struct_id, definition)?;
        Ok(definition)
    }

    /// The definition of the map with this name, by the struct of an id.
    ///
    /// # Errors
    ///
    /// `InvalidStringOffset` where a member's name can't be read, `UnexpectedBtfType` where a
    /// member's type isn't of the form that its name requires, `UnknownBtfType`,
    /// `MaximumTypeDepthReached` and `InvalidTypeInfo` where a type or its size can't be found,
    /// `InvalidValuesSpec` where the array of inner maps has elements, `InnerMapCannotBePinned` and
    /// `MultiLevelMapInMapNotSupported` where an inner map is pinned or holds maps, `OutOfMemory`.
    pub fn definition(
        &mut self,
        alloc: Global,
        name: &str,
        struct_id: u32,
    ) -> Result<BtfDefinition, BtfError>
        ensures value { IfOk result (λ d. definition_of d ≡ defined self.old struct_id) }
        ensures accepted { OnOk result (errors self.old struct_id ≡ []) }
        ensures refused { IfErr result (λ e.
            e ≢ OutOfMemory → HasDefinitionFault self.old name.now struct_id e) }
        ensures table { self.new ≡ self.old }
    {
        match self.of_struct(struct_id) {
            Ok(definition) => Ok(definition),
            Err(definition_error) => Err(named_error(alloc, name, definition_error)),
        }
    }
}
