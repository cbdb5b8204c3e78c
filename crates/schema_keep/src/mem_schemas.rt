// Schemas in memory.
ghost use Rattle.std.specs.Prelude.{◌≡◌, IfOk};

use crate::{SchemaFault, Schemas, TableShape};
use std::alloc::{AllocError, Global};

/// The schema of the file at a path.
#[derive(Drop)]
pub struct MemSchema {
    pub path: String,
    pub tables: Vec<TableShape>,
}

/// Schemas in memory. Of two schemas of one path the first counts, and the tables of a path without a schema can't be told.
#[derive(Drop)]
pub struct MemSchemas {
    schemas: Vec<MemSchema>,
    faults: u64,
}

// A copy of tables.
fn copy_tables(alloc: Global, tables: &[TableShape]) -> Result<Vec<TableShape>, AllocError>
    ensures { IfOk result (λ copy. copy.items ≡ tables.now) }
{
    let mut copy = Vec::new(alloc);
    for table in tables {
        copy.push(table.copy(alloc)?)?;
    }
    Ok(copy)
}

impl MemSchemas {
    ghost use Rattle.std.specs.Prelude.{◌≡◌, option_map};
    ghost use Rattle.std.specs.List.{find};
    ghost use Rattle.schema_keep.specs.Memory.{is_at, mem_schemas_view, tables_at};
    ghost use Rattle.schema_keep.specs.Views.{unasked};

    /// Schemas in memory, of which nothing was asked.
    pub fn new(schemas: Vec<MemSchema>) -> MemSchemas
        ensures { mem_schemas_view result ≡ unasked (tables_at schemas.items) }
    {
        MemSchemas { schemas, faults: 0 }
    }

    // The first schema of a path, where there is one.
    fn find(&self, path: &str) -> Option<&MemSchema>
        ensures { option_map (λ schema. schema.now) result ≡ find (is_at path.now) self.now.schemas.items }
    {
        self.schemas
            .iter()
            .find(|schema| schema.path.as_str() == path)
    }
}

impl Schemas for MemSchemas {
    ghost use Rattle.schema_keep.specs.Memory.{mem_schemas_view};

    ghost view = { mem_schemas_view };

    fn tables(&mut self, alloc: Global, path: &str) -> Result<Vec<TableShape>, SchemaFault> {
        if let Some(schema) = self.find(path) {
            return Ok(copy_tables(alloc, &schema.tables)?);
        }
        self.faults = self.faults.saturating_add(1);
        Err(SchemaFault::Failed("there is no such schema"))
    }
}
