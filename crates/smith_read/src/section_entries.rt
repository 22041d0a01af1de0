//! Canonical functions and exports.

ghost use Rattle.smith_tree.specs.Shown.{shown_canon, shown_export};
ghost use Rattle.smith_tree.specs.Tree.{Canon, ExportEntry};
ghost use Rattle.smith_read.specs.Reading.{Gives, skip_at};
ghost use Rattle.smith_read.specs.SectionEntries.{canon_at, export_at};

use crate::lists::{Readable, read_text, skip};
use crate::numbers::{byte_of, count_of};
use crate::unread::{Reason, Unread, malformed};
use smith_tree::{Export, Func};
use std::alloc::Global;

impl Readable for Export {
    ghost Shown = { ExportEntry };

    ghost shown = { shown_export };

    ghost reading = { export_at };

    #[tactic(auto, unfolding(crate::specs::SectionEntries::export_at))]
    fn read(alloc: Global, bytes: &[u8]) -> Result<(Export, &[u8]), Unread> {
        let rest = skip(bytes, 0x00)?;
        let (name, rest) = read_text(alloc, rest)?;
        let rest = skip(rest, 0x01)?;
        let (func_index, rest) = count_of(rest)?;
        let rest = skip(rest, 0x00)?;
        Ok((Export { name, func_index }, rest))
    }
}

// What follows an empty list of canonical options.
#[tactic(auto, unfolding(crate::specs::Reading::skip_at))]
fn no_options(bytes: &[u8]) -> Result<&[u8], Unread>
    ensures { Gives (λ x. x.now) result (skip_at 0x00 bytes.now) }
{
    let (count, rest) = byte_of(bytes)?;
    if count == 0x00 {
        Ok(rest)
    } else {
        Err(malformed(bytes, Reason::Options))
    }
}

impl Readable for Func {
    ghost Shown = { Canon };

    ghost shown = { shown_canon };

    ghost reading = { canon_at };

    #[tactic(auto, unfolding(crate::specs::SectionEntries::canon_at, crate::specs::SectionEntries::canon_after))]
    fn read(_alloc: Global, bytes: &[u8]) -> Result<(Func, &[u8]), Unread> {
        let (tag, rest) = byte_of(bytes)?;
        match tag {
            0x00 => {
                let rest = skip(rest, 0x00)?;
                let (core_func_index, rest) = count_of(rest)?;
                let rest = no_options(rest)?;
                let (func_ty, rest) = count_of(rest)?;
                let lift = Func::CanonLift {
                    func_ty,
                    core_func_index,
                };
                Ok((lift, rest))
            }
            0x01 => {
                let rest = skip(rest, 0x00)?;
                let (func_index, rest) = count_of(rest)?;
                let rest = no_options(rest)?;
                Ok((Func::CanonLower { func_index }, rest))
            }
            _ => Err(malformed(bytes, Reason::Byte)),
        }
    }
}
