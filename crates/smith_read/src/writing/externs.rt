//! Imports and exports (Binary.md, import and export definitions).
#![tactic(auto, using(smith_format::proofs::Steps::writing))]

ghost use Rattle.smith_format.specs.Piece.{◌⊕◌, byte};
ghost use Rattle.smith_format.specs.Writing.{Puts};
ghost use Rattle.smith_syntax.specs.Grammar.{import_entry, importdecl, named_extern};
ghost use Rattle.smith_read.specs.PartNodes.{shown_import_node};

use crate::ImportNode;
use crate::writing::lists::Written;
use smith_format::write_byte;
use smith_input::Error;
use smith_syntax::{ComponentTypeRef, put_named};

/// Puts an import or an export after the byte that says which of the two it is.
pub(crate) fn put_extern(
    out: &mut Vec<u8>,
    tag: u8,
    name: &str,
    to: ComponentTypeRef,
) -> Result<(), Error>
    ensures { Puts result out.old out.new (byte tag ⊕ named_extern name.now to) }
{
    write_byte(out, tag)?;
    put_named(out, name, to)
}

/// Puts an import that a component type declares. An instance type has none.
pub(crate) fn put_declared_import(
    out: &mut Vec<u8>,
    importing: bool,
    name: &str,
    to: ComponentTypeRef,
) -> Result<(), Error>
    ensures { Puts result out.old out.new (importdecl importing name.now to) }
{
    if !importing {
        return Err(Error::TooLong);
    }
    put_extern(out, 0x03, name, to)
}

impl Written for ImportNode {
    ghost piece = { λ i. import_entry (shown_import_node i) };

    fn put(&self, out: &mut Vec<u8>) -> Result<(), Error> {
        put_named(out, &self.name, self.to)
    }
}
