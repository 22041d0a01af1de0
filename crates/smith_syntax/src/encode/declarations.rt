//! Types of components and instances in the binary format (Binary.md, type definitions): what they declare.
#![tactic(auto, using(crate::proofs::Encoding::encoding))]

ghost use Rattle.std.specs.Prelude.{ℕ, ◌≤◌, Bool, true, false};
ghost use Rattle.smith_format.specs.Piece.{◌⊕◌, byte, bytes, many, u};
ghost use Rattle.smith_format.specs.Writing.{Puts, Takes, IsLengthOf};
ghost use Rattle.smith_syntax.specs.Grammar.{core_entry, named_extern, entry, decl};
ghost use Rattle.smith_syntax.specs.Shown.{shown_type, shown_core};
ghost use Rattle.smith_syntax.specs.ShownDecls.{shown_alias, shown_component_decl, shown_instance_decl};

use super::core_types::{core_type_len, write_core_type};
use super::externs::{named_len, put_named};
use super::{put_type, type_len};
use crate::core_types::CoreType;
use crate::deftype::{
    Alias, ComponentTypeDef, ComponentTypeRef, DefType, InstanceTypeDecl, OuterAliasKind,
};
use smith_format::{count_len, u32_len, write_byte, write_bytes, write_count, write_u32};
use smith_input::Error;

fn put_core_decl(out: &mut Vec<u8>, ty: &CoreType) -> Result<(), Error>
    ensures { Puts result out.old out.new (byte 0x00 ⊕ core_entry (shown_core ty.now)) }
{
    write_byte(out, 0x00)?;
    write_core_type(out, ty)
}

fn core_decl_len(ty: &CoreType) -> Option<u32>
    ensures { IsLengthOf result (byte 0x00 ⊕ core_entry (shown_core ty.now)) }
{
    core_type_len(ty)?.checked_add(1)
}

// An outer alias after the bytes that say what it is of.
#[inline(always)]
fn put_outer(out: &mut Vec<u8>, head: &[u8], count: u32, i: u32) -> Result<(), Error>
    ensures { Puts result out.old out.new (bytes head.now ⊕ u count ⊕ u i) }
{
    write_bytes(out, head)?;
    write_u32(out, count)?;
    write_u32(out, i)
}

#[tactic(auto, using(crate::proofs::Declarations::type_alias_is))]
fn put_alias(out: &mut Vec<u8>, alias: &Alias) -> Result<(), Error>
    ensures { (importing : Bool) → Puts result out.old out.new (decl importing (shown_alias alias.now)) }
{
    match alias.kind {
        OuterAliasKind::OfType(_) => put_outer(out, &[0x02, 0x03, 0x02], alias.count, alias.i),
        OuterAliasKind::OfCoreType(_) => {
            put_outer(out, &[0x02, 0x00, 0x10, 0x02], alias.count, alias.i)
        }
    }
}

fn indices_len(count: u32, i: u32) -> u32
    ensures length { Takes result (u count ⊕ u i) }
    ensures most { result ≤ 10 }
{
    u32_len(count) + u32_len(i)
}

fn alias_len(alias: &Alias) -> u32
    ensures length { (importing : Bool) → Takes result (decl importing (shown_alias alias.now)) }
    ensures most { result ≤ 14 }
{
    match alias.kind {
        OuterAliasKind::OfType(_) => 3 + indices_len(alias.count, alias.i),
        OuterAliasKind::OfCoreType(_) => 4 + indices_len(alias.count, alias.i),
    }
}

// An import or an export after the byte that says which of the two it is.
fn put_extern(out: &mut Vec<u8>, tag: u8, name: &str, to: ComponentTypeRef) -> Result<(), Error>
    ensures { Puts result out.old out.new (byte tag ⊕ named_extern name.now to) }
{
    write_byte(out, tag)?;
    put_named(out, name, to)
}

fn extern_len(name: &str, to: ComponentTypeRef) -> Option<u32>
    ensures { (tag : ℕ) → IsLengthOf result (byte tag ⊕ named_extern name.now to) }
{
    named_len(name, to)?.checked_add(1)
}

#[cycle(writers)]
fn put_type_decl(out: &mut Vec<u8>, ty: &DefType) -> Result<(), Error>
    ensures { Puts result out.old out.new (byte 0x01 ⊕ entry (shown_type ty.now)) }
{
    write_byte(out, 0x01)?;
    put_type(out, ty)
}

#[cycle(writers)]
fn put_component_decl(out: &mut Vec<u8>, declared: &ComponentTypeDef) -> Result<(), Error>
    ensures { Puts result out.old out.new (decl true (shown_component_decl declared.now)) }
{
    match declared {
        ComponentTypeDef::CoreTypeDecl(ty) => put_core_decl(out, ty),
        ComponentTypeDef::TypeDecl(ty) => put_type_decl(out, ty),
        ComponentTypeDef::Alias(alias) => put_alias(out, alias),
        ComponentTypeDef::Export { name, url: _, ty } => put_extern(out, 0x04, name, *ty),
        ComponentTypeDef::Import(import) => put_extern(out, 0x03, &import.name, import.ty),
    }
}

#[cycle(writers)]
fn put_instance_decl(out: &mut Vec<u8>, declared: &InstanceTypeDecl) -> Result<(), Error>
    ensures { Puts result out.old out.new (decl false (shown_instance_decl declared.now)) }
{
    match declared {
        InstanceTypeDecl::CoreTypeDecl(ty) => put_core_decl(out, ty),
        InstanceTypeDecl::TypeDecl(ty) => put_type_decl(out, ty),
        InstanceTypeDecl::Alias(alias) => put_alias(out, alias),
        InstanceTypeDecl::Export { name, url: _, ty } => put_extern(out, 0x04, name, *ty),
    }
}

#[cycle(writers)]
pub(super) fn put_component_decls(
    out: &mut Vec<u8>,
    decls: &[ComponentTypeDef],
) -> Result<(), Error>
    ensures { Puts result out.old out.new (many (λ d. decl true (shown_component_decl d)) decls.now) }
{
    write_count(out, decls.len())?;
    for declared in decls {
        put_component_decl(out, declared)?;
    }
    Ok(())
}

#[cycle(writers)]
pub(super) fn put_instance_decls(out: &mut Vec<u8>, decls: &[InstanceTypeDecl]) -> Result<(), Error>
    ensures { Puts result out.old out.new (many (λ d. decl false (shown_instance_decl d)) decls.now) }
{
    write_count(out, decls.len())?;
    for declared in decls {
        put_instance_decl(out, declared)?;
    }
    Ok(())
}

#[cycle(lengths)]
fn type_decl_len(ty: &DefType) -> Option<u32>
    ensures { IsLengthOf result (byte 0x01 ⊕ entry (shown_type ty.now)) }
{
    type_len(ty)?.checked_add(1)
}

#[cycle(lengths)]
fn component_decl_len(declared: &ComponentTypeDef) -> Option<u32>
    ensures { IsLengthOf result (decl true (shown_component_decl declared.now)) }
{
    match declared {
        ComponentTypeDef::CoreTypeDecl(ty) => core_decl_len(ty),
        ComponentTypeDef::TypeDecl(ty) => type_decl_len(ty),
        ComponentTypeDef::Alias(alias) => Some(alias_len(alias)),
        ComponentTypeDef::Export { name, url: _, ty } => extern_len(name, *ty),
        ComponentTypeDef::Import(import) => extern_len(&import.name, import.ty),
    }
}

#[cycle(lengths)]
fn instance_decl_len(declared: &InstanceTypeDecl) -> Option<u32>
    ensures { IsLengthOf result (decl false (shown_instance_decl declared.now)) }
{
    match declared {
        InstanceTypeDecl::CoreTypeDecl(ty) => core_decl_len(ty),
        InstanceTypeDecl::TypeDecl(ty) => type_decl_len(ty),
        InstanceTypeDecl::Alias(alias) => Some(alias_len(alias)),
        InstanceTypeDecl::Export { name, url: _, ty } => extern_len(name, *ty),
    }
}

#[cycle(lengths)]
pub(super) fn component_decls_len(decls: &[ComponentTypeDef]) -> Option<u32>
    ensures { IsLengthOf result (many (λ d. decl true (shown_component_decl d)) decls.now) }
{
    let mut total: u32 = 0;
    for declared in decls {
        total = total.checked_add(component_decl_len(declared)?)?;
    }
    count_len(decls.len())?.checked_add(total)
}

#[cycle(lengths)]
pub(super) fn instance_decls_len(decls: &[InstanceTypeDecl]) -> Option<u32>
    ensures { IsLengthOf result (many (λ d. decl false (shown_instance_decl d)) decls.now) }
{
    let mut total: u32 = 0;
    for declared in decls {
        total = total.checked_add(instance_decl_len(declared)?)?;
    }
    count_len(decls.len())?.checked_add(total)
}
