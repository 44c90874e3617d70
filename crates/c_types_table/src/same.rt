//! Whether two numbers name one type.

ghost use Rattle.std.specs.Prelude.{◌≡◌, ◌<◌, ◌↔◌, length, IsTrue};
ghost use Rattle.c_types_table.specs.Tables.{type_at};

use crate::ids::TypeId;
use crate::table::Types;

impl Types {
    /// Whether the two types are equal. Each type of a table has one number.
    pub fn is_same(&self, a: TypeId, b: TypeId) -> bool
        requires left { a.0 < length self.now }
        requires right { b.0 < length self.now }
        ensures { IsTrue result ↔ (type_at self.now a ≡ type_at self.now b) }
    {
        // No type stands twice in it.
        let _types = &self.nodes;
        a.0 == b.0
    }
}
