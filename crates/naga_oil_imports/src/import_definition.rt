// Imports of modules, with the items used of them.
ghost use Rattle.std.specs.Prelude.{◌≡◌, IfOk, OnOk, OnErr};
ghost use Rattle.std.specs.String.{string_bytes};

use std::alloc::{AllocError, Global};

/// An import of a module, with the items used of it, in order.
#[derive(Debug, Drop, PartialEq, Eq)]
pub struct ImportDefinition {
    pub import: String,
    pub items: Vec<String>,
}

/// An import, with the place in the text, in bytes, of its first use.
#[derive(Debug, Drop)]
pub struct ImportDefWithOffset {
    definition: ImportDefinition,
    offset: usize,
}

impl ImportDefinition {
    ghost use Rattle.naga_oil_imports.specs.Uses.{import_of, nothing_asked};

    /// Returns an import with an empty name and no items. It allocates nothing.
    pub fn new(alloc: Global) -> ImportDefinition
        ensures { import_of result ≡ nothing_asked }
    {
        ImportDefinition {
            import: String::new(alloc),
            items: Vec::new(alloc),
        }
    }

    /// Returns an equal import.
    pub fn try_clone(&self) -> Result<ImportDefinition, AllocError>
        ensures { IfOk result (λ copy. import_of copy ≡ import_of self.now) }
    {
        Ok(ImportDefinition {
            import: self.import.clone()?,
            items: self.items.clone()?,
        })
    }
}

impl ImportDefWithOffset {
    ghost use Rattle.naga_oil_imports.specs.Uses.{import_of, use_of, Use, first_use, with_item};

    /// Returns an import whose first use is at the place.
    pub fn new(definition: ImportDefinition, offset: usize) -> ImportDefWithOffset
        ensures { use_of result ≡ record { import = import_of definition; offset = offset } }
    {
        ImportDefWithOffset { definition, offset }
    }

    pub fn definition(&self) -> &ImportDefinition
        ensures { import_of result.now ≡ (use_of self.now).import }
    {
        &self.definition
    }

    /// The place in the text, in bytes, of the import's first use.
    pub fn offset(&self) -> usize
        ensures { result ≡ (use_of self.now).offset }
    {
        self.offset
    }

    /// Returns an equal import with the same place.
    pub fn try_clone(&self) -> Result<ImportDefWithOffset, AllocError>
        ensures { IfOk result (λ copy. use_of copy ≡ use_of self.now) }
    {
        Ok(ImportDefWithOffset {
            definition: self.definition.try_clone()?,
            offset: self.offset,
        })
    }

    // The import that the first use makes: of one item, at the place.
    pub(crate) fn first_use(
        alloc: Global,
        module_name: &str,
        item: String,
        place: usize,
    ) -> Result<ImportDefWithOffset, AllocError>
        ensures { let first = first_use module_name.now (string_bytes item) place in
            IfOk result (λ d. use_of d ≡ first) }
    {
        let import = String::from_str(alloc, module_name)?;
        let mut items = Vec::with_capacity(alloc, 1)?;
        items.push(item)?;
        Ok(ImportDefWithOffset {
            definition: ImportDefinition { import, items },
            offset: place,
        })
    }

    // Adds one item.
    pub(crate) fn push_item(&mut self, item: String) -> Result<(), AllocError>
        ensures ok { let more = with_item (use_of self.old) (string_bytes item) in
            OnOk result (use_of self.new ≡ more) }
        ensures err { OnErr result (use_of self.new ≡ use_of self.old) }
    {
        self.definition.items.push(item)?;
        Ok(())
    }
}
