//! Imports and exports.

ghost use Rattle.std.specs.Prelude.{string_bytes};
ghost use Rattle.smith_read.specs.Reading.{Gives};
ghost use Rattle.smith_read.specs.Externs.{extern_at, named_at};

use crate::lists::{read_text, skip};
use crate::numbers::{byte_of, count_of};
use crate::unread::{Reason, Unread, malformed};
use smith_syntax::ComponentTypeRef;
use std::alloc::Global;

#[tactic(auto, unfolding(crate::specs::Externs::extern_at, crate::specs::Externs::extern_after))]
fn extern_of(bytes: &[u8]) -> Result<(ComponentTypeRef, &[u8]), Unread>
    ensures { Gives (λ x. (x.0, x.1.now)) result (extern_at bytes.now) }
{
    let (tag, rest) = byte_of(bytes)?;
    match tag {
        0x00 => {
            let rest = skip(rest, 0x11)?;
            let (index, rest) = count_of(rest)?;
            Ok((ComponentTypeRef::Module(index), rest))
        }
        0x01 => {
            let (index, rest) = count_of(rest)?;
            Ok((ComponentTypeRef::Func(index), rest))
        }
        0x03 => {
            let rest = skip(rest, 0x00)?;
            let (index, rest) = count_of(rest)?;
            Ok((ComponentTypeRef::TypeEq(index), rest))
        }
        0x04 => {
            let (index, rest) = count_of(rest)?;
            Ok((ComponentTypeRef::Component(index), rest))
        }
        0x05 => {
            let (index, rest) = count_of(rest)?;
            Ok((ComponentTypeRef::Instance(index), rest))
        }
        _ => Err(malformed(bytes, Reason::Byte)),
    }
}

/// The name of an import or an export, and what it is of.
#[tactic(auto, unfolding(crate::specs::Externs::named_at))]
pub fn named_of(alloc: Global, bytes: &[u8]) -> Result<((String, ComponentTypeRef), &[u8]), Unread>
    ensures { Gives (λ x. ((string_bytes x.0.0, x.0.1), x.1.now)) result (named_at bytes.now) }
{
    let rest = skip(bytes, 0x00)?;
    let (name, rest) = read_text(alloc, rest)?;
    let (to, rest) = extern_of(rest)?;
    Ok(((name, to), rest))
}
