//! Names of imports and exports, from the input.

ghost use Rattle.std.specs.Prelude.{◌≡◌, List, [], ◌∷◌, ◌++◌, length, string_bytes, IfOk, OnErr};
ghost use Rattle.smith_input.specs.Consumes.{Consumes};
ghost use Rattle.smith_syntax.specs.Shown.{shown_url};
ghost use Rattle.smith_types.specs.Declarations.{NamedExtern, ReadsMaybeUrl, ReadsNamedExtern, url_name};
ghost use Rattle.smith_types.specs.MakingTypes.{HoldsExterns};
ghost use Rattle.smith_input.specs.Names.{Holds};

use smith_format::Config;
use smith_input::{Error, Unstructured, unique_kebab_string, unique_url};
use std::alloc::Global;
use std::collections::BTreeSet;

/// The names so far, and the names in the URLs so far, of imports or of exports that must differ: those of one type, or
/// of one component.
#[derive(Drop)]
pub struct ExternNames {
    pub(super) names: BTreeSet<String>,
    pub(super) urls: BTreeSet<String>,
}

impl ExternNames {
    /// No names. It takes no memory.
    pub fn new(alloc: Global) -> ExternNames
        ensures { HoldsExterns result [] }
    {
        ExternNames {
            names: BTreeSet::new(alloc),
            urls: BTreeSet::new(alloc),
        }
    }

    /// How many names there are so far, without those in URLs.
    pub fn len(&self) -> usize
        ensures { (so_far : List NamedExtern) → HoldsExterns self.now so_far → result ≡ length so_far }
    {
        self.names.len()
    }
}

// The names of what a component type imports, and of what it exports.
#[derive(Drop)]
pub(super) struct ComponentNames {
    pub(super) imports: ExternNames,
    pub(super) exports: ExternNames,
}

// A boolean, and a URL if it is true, which has a name that no URL has so far.
fn read_url(
    alloc: Global,
    config: &Config,
    u: &mut Unstructured,
    urls: &mut BTreeSet<String>,
) -> Result<Option<String>, Error>
    ensures reads { (used : List _) → Holds urls.old used
        → IfOk result (λ url. ReadsMaybeUrl config.now used u.old (shown_url url) u.new) }
    ensures names { (used : List _) → Holds urls.old used
        → IfOk result (λ url. Holds urls.new (used ++ url_name (shown_url url))) }
    ensures refused { OnErr result (urls.new.keys ≡ urls.old.keys) }
    ensures input { Consumes result u.old u.new }
{
    if !u.arbitrary_bool() {
        return Ok(None);
    }
    let url = unique_url(alloc, config.max_name_length, urls, u)?;
    Ok(Some(url))
}

/// A name in kebab case that is new among those so far, a boolean, and if it is true a URL, which has a name that no
/// URL has so far: names as long as the limits allow. Both are then among the names so far. It fails only when out of
/// memory, and the names so far, and those in URLs, are then as before.
pub fn named_extern(
    alloc: Global,
    config: &Config,
    u: &mut Unstructured,
    externs: &mut ExternNames,
) -> Result<(String, Option<String>), Error>
    ensures reads { (so_far : List NamedExtern) → HoldsExterns externs.old so_far
        → IfOk result (λ n. ReadsNamedExtern config.now so_far u.old (string_bytes n.0, shown_url n.1) u.new) }
    ensures names { (so_far : List NamedExtern) → HoldsExterns externs.old so_far
        → IfOk result (λ n. HoldsExterns externs.new (so_far ++ (string_bytes n.0, shown_url n.1) ∷ [])) }
    ensures refused { (so_far : List NamedExtern) → HoldsExterns externs.old so_far
        → OnErr result (HoldsExterns externs.new so_far) }
    ensures input { Consumes result u.old u.new }
{
    let name = unique_kebab_string(alloc, config.max_name_length, &mut externs.names, u)?;
    match read_url(alloc, config, u, &mut externs.urls) {
        Ok(url) => Ok((name, url)),
        Err(refused) => {
            // The name was gained before the URL was refused.
            externs.names.remove(name.as_str());
            Err(refused)
        }
    }
}
