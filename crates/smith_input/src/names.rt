//! Names that are read, and are new to a set of names.

ghost use Rattle.std.specs.Prelude.{◌≡◌, ◌%◌, ◌<◌, ◌≤◌, ◌++◌, ℕ, List, false, length, map, bytes_eq, string_bytes};
ghost use Rattle.std.specs.Prelude.{IfOk, IfErr, OnErr};
ghost use Rattle.std.specs.BTreeSet.{contains_text};
ghost use Rattle.smith_input.specs.Consumes.{Consumes};
ghost use Rattle.smith_input.specs.Texts.{ReadsNewText, ReadsText};
ghost use Rattle.smith_input.specs.Kebab.{Kebab};
ghost use Rattle.smith_input.specs.Names.{character, ReadsKebab, ReadsNew, ReadsUnique, ReadsUrl, GainsName};
ghost use Rattle.smith_input.specs.NewNames.{is_among, IsMadeNew};
ghost use Rattle.smith_input.specs.Script.{script_name};

use crate::{Error, Unstructured, limited_string};
use std::alloc::Global;
use std::collections::BTreeSet;

/// The greatest limit of how many bytes of a name are read. Public only for the crates above.
pub const MOST_NAME_LEN: usize = 100;

const HOST: &str = "https://example.com/";

// The character of each byte where a word begins, and where it goes on: the character of the byte's remainder by 37.
// Tables take no division, and no branch, which no processor could foresee here.
const BEGINNINGS: &[u8; 256] =
    b"abcdefghijklmnopqrstuvwxyzabcdefghijaabcdefghijklmnopqrstuvwxyzabcdefghija\
    abcdefghijklmnopqrstuvwxyzabcdefghijaabcdefghijklmnopqrstuvwxyzabcdefghija\
    abcdefghijklmnopqrstuvwxyzabcdefghijaabcdefghijklmnopqrstuvwxyzabcdefghija\
    abcdefghijklmnopqrstuvwxyzabcdefgh";

const CONTINUATIONS: &[u8; 256] =
    b"abcdefghijklmnopqrstuvwxyz0123456789-abcdefghijklmnopqrstuvwxyz0123456789-\
    abcdefghijklmnopqrstuvwxyz0123456789-abcdefghijklmnopqrstuvwxyz0123456789-\
    abcdefghijklmnopqrstuvwxyz0123456789-abcdefghijklmnopqrstuvwxyz0123456789-\
    abcdefghijklmnopqrstuvwxyz01234567";

// The character that a byte chooses among 37.
fn kebab_character(byte: u8, begins: bool) -> u8
    ensures { result ≡ character begins (byte % 37) }
{
    let characters = if begins { BEGINNINGS } else { CONTINUATIONS };
    characters[usize::from(byte)]
}

// A name in kebab case. It is not inlined, since it is called from several places.
#[inline(never)]
fn kebab_string(alloc: Global, max: usize, u: &mut Unstructured) -> Result<String, Error>
    ensures read { IfOk result (λ name. ReadsKebab max u.old (string_bytes name) u.new) }
    ensures input { Consumes result u.old u.new }
{
    let count = u.int_in_range(0, max as u64);
    let mut name = Vec::with_capacity(alloc, (count as usize).saturating_add(1))?;
    let mut begins = true;
    // A reader of its own stays in registers from one character to the next.
    let mut reader = Unstructured::new(u.left());
    for _place in 0..count {
        let character = kebab_character(reader.arbitrary_u8(), begins);
        begins = character == b'-';
        name.push_reserved(character);
    }
    if begins {
        name.push(b'a')?;
    }
    *u = reader;
    Ok(unsafe { String::from_utf8_unchecked(name) })
}

/// The existing names. Public only for the crates above.
pub trait TakenNames {
    ghost texts: { Self → List (List ℕ) };

    /// Whether the name is one of them.
    fn has_name(&self, name: &str) -> bool
        ensures { result ≡ is_among (texts self.now) name.now };

    /// How many there are.
    fn name_count(&self) -> usize
        ensures { result ≡ length (texts self.now) };
}

impl TakenNames for BTreeSet<String> {
    ghost texts = { λ s. map string_bytes s.keys };

    fn has_name(&self, name: &str) -> bool {
        self.contains(name)
    }

    fn name_count(&self) -> usize {
        self.len()
    }
}

/// What has a name. Public only for the crates above.
pub trait Labelled {
    ghost text: { Self → List ℕ };

    /// The name.
    fn label(&self) -> &str
        ensures { result.now ≡ text self.now };
}

impl Labelled for String {
    ghost text = { string_bytes };

    fn label(&self) -> &str {
        self.as_str()
    }
}

impl<T> Labelled for (String, T) {
    ghost text = { λ p. string_bytes p.0 };

    fn label(&self) -> &str {
        self.0.as_str()
    }
}

// Are they the same text? It is not inlined: a comparison by the length of the name would be a loop of its own for each
// class of lengths.
#[inline(never)]
fn is_same(one: &str, other: &str) -> bool
    ensures { result ≡ bytes_eq one.now other.now }
{
    one == other
}

// Does one of the items have that name?
fn has_label<T: Labelled>(items: &[T], name: &str) -> bool
    ensures { result ≡ is_among (map T.text items.now) name.now }
{
    for item in items {
        if is_same(item.label(), name) {
            return true;
        }
    }
    false
}

impl<'a, T: Labelled> TakenNames for &'a [T] {
    ghost texts = { λ s. map T.text s.now };

    fn has_name(&self, name: &str) -> bool {
        has_label(*self, name)
    }

    fn name_count(&self) -> usize {
        self.len()
    }
}

// The name, with the digits of the number of names at its end while it is one of them.
fn made_unique<N: TakenNames>(alloc: Global, name: String, names: &N) -> Result<String, Error>
    ensures unique { IfOk result (λ unique. IsMadeNew (N.texts names.now) (string_bytes name) (string_bytes unique)) }
    ensures kebab { IfOk result (λ unique. Kebab (string_bytes name) → Kebab (string_bytes unique)) }
    ensures memory { IfErr result (λ e. e ≡ Error.OutOfMemory) }
{
    let mut unique = name;
    while names.has_name(unique.as_str()) {
        let digits = names.name_count().to_string(alloc)?;
        unique.push_str(digits.as_str())?;
    }
    Ok(unique)
}

/// A text that is none of the names: one of at most `max` bytes is read, and while it is one of them, the decimal
/// digits of their number are appended. The only error is `OutOfMemory`. Public only for the crates above.
pub fn new_string<N: TakenNames>(
    alloc: Global,
    max: usize,
    names: &N,
    u: &mut Unstructured,
) -> Result<String, Error>
    ensures read { IfOk result (λ name. ReadsNewText max (N.texts names.now) u.old (string_bytes name) u.new) }
    ensures input { Consumes result u.old u.new }
{
    made_unique(alloc, limited_string(alloc, max, u)?, names)
}

/// A name in kebab case that is none of the names: one is read and made unique as by `unique_kebab_string`. The only
/// error is `OutOfMemory`. Public only for the crates above.
#[inline(always)]
pub fn new_kebab_string<N: TakenNames>(
    alloc: Global,
    max: usize,
    names: &N,
    u: &mut Unstructured,
) -> Result<String, Error>
    ensures read { IfOk result (λ name. ReadsNew max (N.texts names.now) u.old (string_bytes name) u.new) }
    ensures kebab { IfOk result (λ name. Kebab (string_bytes name)) }
    ensures input { Consumes result u.old u.new }
{
    made_unique(alloc, kebab_string(alloc, max, u)?, names)
}

/// A text that was not in the set before, and is in it afterwards: one of at most `max` bytes is read, and while the
/// set has it, the decimal digits of the set's size are appended. So it may be longer than `max`. The only error is
/// `OutOfMemory`, and the set is then as before.
pub fn unique_string(
    alloc: Global,
    max: usize,
    names: &mut BTreeSet<String>,
    u: &mut Unstructured,
) -> Result<String, Error>
    ensures read { IfOk result (λ name. ReadsUnique (ReadsText max) names.old u.old (string_bytes name) u.new) }
    ensures gained { IfOk result (λ name. GainsName names.old names.new (string_bytes name)) }
    ensures refused { OnErr result (names.new.keys ≡ names.old.keys) }
    ensures input { Consumes result u.old u.new }
{
    let name = new_string(alloc, max, &*names, u)?;
    names.insert(name.clone()?)?;
    Ok(name)
}

/// A name in kebab case that was not in the set before, and is in it afterwards: one of at most `max` characters is
/// read, with one more `a` at its end if a word is missing there, and while the set has it, the decimal digits of the
/// set's size are appended. So it may be longer than `max`. The only error is `OutOfMemory`, and the set is then as
/// before.
#[inline(always)]
pub fn unique_kebab_string(
    alloc: Global,
    max: usize,
    names: &mut BTreeSet<String>,
    u: &mut Unstructured,
) -> Result<String, Error>
    ensures read { IfOk result (λ name. ReadsUnique (ReadsKebab max) names.old u.old (string_bytes name) u.new) }
    ensures kebab { IfOk result (λ name. Kebab (string_bytes name)) }
    ensures gained { IfOk result (λ name. GainsName names.old names.new (string_bytes name)) }
    // The script of a name that is not in the set produces that name.
    ensures script { (name rest : List ℕ) → Kebab name → length name ≤ max → contains_text names.old name ≡ false
        → u.old ≡ script_name max name ++ rest → IfOk result (λ text. (string_bytes text ≡ name) × (u.new ≡ rest)) }
    ensures refused { OnErr result (names.new.keys ≡ names.old.keys) }
    ensures input { Consumes result u.old u.new }
{
    let name = new_kebab_string(alloc, max, &*names, u)?;
    names.insert(name.clone()?)?;
    Ok(name)
}

/// A URL: `https://example.com/` and a name in kebab case that was not in the set, read and made unique as by
/// `unique_kebab_string`. The set then has only the name, without what precedes it. The only error is `OutOfMemory`,
/// and the set is then as before.
pub fn unique_url(
    alloc: Global,
    max: usize,
    names: &mut BTreeSet<String>,
    u: &mut Unstructured,
) -> Result<String, Error>
    ensures read { IfOk result (λ url. ReadsUrl max names.old names.new u.old (string_bytes url) u.new) }
    ensures refused { OnErr result (names.new.keys ≡ names.old.keys) }
    ensures input { Consumes result u.old u.new }
{
    let path = new_kebab_string(alloc, max, &*names, u)?;
    let mut url = String::with_capacity(alloc, HOST.len() + path.len())?;
    url.push_str(HOST)?;
    url.push_str(path.as_str())?;
    names.insert(path)?;
    Ok(url)
}
