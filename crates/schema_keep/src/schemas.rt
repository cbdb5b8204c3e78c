// Which tables files have.
ghost use Rattle.std.specs.Prelude.{◌≡◌, IfOk, IfSome, OnErr};
ghost use Rattle.schema_keep.specs.Views.{HasFailed, KeepsSchemas, SchemasView};

use crate::{SchemaFault, TableShape};
use std::alloc::Global;

/// Which tables files have. No call changes them.
pub trait Schemas {
    /// What a state of the schemas means.
    ghost view: { Self → SchemasView };

    /// The tables of the file at a path, in the order of its schema. `Failed`: they can't be told, and its count of faults rose.
    fn tables(&mut self, alloc: Global, path: &str) -> Result<Vec<TableShape>, SchemaFault>
        ensures keeps { KeepsSchemas (view self.old) (view self.new) }
        ensures told { IfOk result (λ tables. IfSome ((view self.old).told path.now) (λ told. tables.items ≡ told)) }
        ensures failed { HasFailed (view self.old) (view self.new) path.now result };
}
