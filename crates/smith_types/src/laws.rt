//! Laws of how types are read. Each function does nothing: its contract is the law.

ghost use Rattle.std.specs.Prelude.{◌≡◌, ◌<◌, ◌≤◌, ◌↔◌, ◌∷◌, ◌+◌, ◌-◌, ◌^◌, ℕ, List, [], length, max, true, false};
ghost use Rattle.std.specs.Prelude.{nat_eq};
ghost use Rattle.smith_format.specs.declared.config.Config.{Config};
ghost use Rattle.smith_input.specs.Reading.{IsDecided, IsReadAs};
ghost use Rattle.smith_input.specs.Script.{AreBytes, script_among};
ghost use Rattle.smith_syntax.specs.CoreLimits.{CoreLimits};
ghost use Rattle.smith_syntax.specs.Entries.{CoreEntry, Entry, FullEntry, plain};
ghost use Rattle.smith_syntax.specs.Marked.{Marked, scope_in, scopes_in_marked};
ghost use Rattle.smith_syntax.specs.Scope.{Scope};
ghost use Rattle.smith_syntax.specs.Usable.{OfferedEntry, OfferedRef};
ghost use Rattle.smith_syntax.specs.TypeLimits.{EntryLimits};
ghost use Rattle.smith_syntax.specs.WellFormed.{FormedCore, FormedEntry, FormedRef};
ghost use Rattle.smith_syntax.specs.declared.deftype.ComponentTypeRef.TheVariants.{Func};
ghost use Rattle.smith_types.specs.Made.{Made, MadeWith};
ghost use Rattle.smith_types.specs.MadeCore.{MadeCore};
ghost use Rattle.smith_tree.specs.CoreTypeNeeds.{core_cost, core_need};
ghost use Rattle.smith_tree.specs.CoreTypeScript.{script_core};
ghost use Rattle.smith_tree.specs.ReadableCoreTypes.{IsReadableCore};
ghost use Rattle.smith_tree.specs.TypeNeeds.{declaring, need};
ghost use Rattle.smith_tree.specs.TypeOffers.{IsAllowed, has_room, ref_places};
ghost use Rattle.smith_tree.specs.declared.choices.RefKind.TheVariants as ref;
ghost use Rattle.smith_tree.specs.ReadableTypes.{IsReadableType};
ghost use Rattle.smith_types.specs.Sayable.{Fit, IsSayable};
ghost use Rattle.smith_tree.specs.TypeScript.{script_ref, script_type};
ghost use Rattle.smith_tree.specs.declared.totals.RefTotals.{RefTotals};

pub use smith_tree::laws::sizes_are_needed;

/// The limits, the scopes, the bytes and the fuel alone decide which type is made, with its URLs and what its aliases
/// keep, and the rest of the bytes and of the fuel.
#[tactic(auto, using(crate::proofs::MadeSame::made_same))]
pub fn types_are_decided()
    ensures { (config : Config) (own : Marked) (outer : List Marked) (fuel : ℕ)
        → IsDecided (λ bytes (made : FullEntry × ℕ) rest. Made config own outer bytes fuel made.0 rest made.1) }
{}

/// The script of a type that is well formed in its scopes and within the limits, whose names can be read, and for which
/// the fuel lasts, is read as that type.
#[tactic(auto, using(crate::proofs::ScopedScript::type_read))]
pub fn scripts_are_read()
    ensures { (config : Config) (own : Marked) (outer : List Marked) (fuel : ℕ) (e : Entry)
        → config.max_nesting_depth ≤ 1000 → IsSayable config own outer fuel e
        → IsReadAs (MadeWith config own outer fuel) (script_type e config fuel own outer) e }
{}

/// The script of such a type is bytes.
#[tactic(auto, using(crate::proofs::ScopedScript::type_bytes))]
pub fn type_scripts_are_bytes()
    ensures { (config : Config) (own : Marked) (outer : List Marked) (fuel : ℕ) (e : Entry)
        → config.max_nesting_depth ≤ 1000 → IsSayable config own outer fuel e
        → AreBytes (script_type e config fuel own outer) }
{}

/// If no type of a component, of an instance or of a core module can be imported, the script of what an import of a
/// component is of has no byte for its kind: it is a choice among the function types that can be imported.
pub fn function_imports_choose_no_kind()
    ensures { (config : Config) (own : Marked) (totals : RefTotals) (i : ℕ)
        → ref_places own true ref.Module ≡ [] → ref_places own true ref.Component ≡ []
        → ref_places own true ref.Instance ≡ [] → FormedRef (scope_in own) (Func i) → OfferedRef own true (Func i)
        → has_room own false ≡ true → IsAllowed config own totals true false (Func i)
        → script_ref config own totals true false (Func i) ≡ script_among nat_eq (ref_places own true ref.Func) i }
{}

/// A type that is read, on any input, needs no more fuel than there was, and declares types only if one more scope may
/// nest. All names within it can be read.
#[tactic(auto, using(smith_tree::proofs::TypeNeeds::declared_within, crate::proofs::MadeFits::made_fits))]
pub fn answers_need_no_more()
    ensures { (config : Config) (own : Marked) (outer : List Marked) (bytes : List ℕ) (fuel : ℕ) (made : FullEntry)
        (rest : List ℕ) (left : ℕ)
        → Made config own outer bytes fuel made rest left
        → (need (plain made) ≤ fuel)
        × (length (own ∷ outer) + declaring (plain made) ≤ max (length (own ∷ outer)) config.max_nesting_depth)
        × IsReadableType config (plain made) }
{}

/// Everything that a type read on any input names was offered.
#[tactic(auto, using(crate::proofs::MadeFits::made_fits))]
pub fn answers_are_offered()
    ensures { (config : Config) (own : Marked) (outer : List Marked) (bytes : List ℕ) (fuel : ℕ) (made : FullEntry)
        (rest : List ℕ) (left : ℕ)
        → Made config own outer bytes fuel made rest left → OfferedEntry (plain made) own outer }
{}

/// A type is read on some input exactly if it is well formed in its scopes, all that it names is offered, it is within
/// the limits, its names can be read, there is fuel for it, and it declares types only if one more scope may nest.
pub fn types_are_exact()
    ensures { (config : Config) (own : Marked) (outer : List Marked) (fuel : ℕ) (e : Entry)
        → config.max_nesting_depth ≤ 1000 → Fit (own ∷ outer) → length (own ∷ outer) ≤ 1000
        → config.max_name_length < 2 ^ 64
        → ((bytes rest : List ℕ) × AreBytes bytes × MadeWith config own outer fuel bytes e rest)
        ↔ (FormedEntry e (scope_in own) (scopes_in_marked outer) × OfferedEntry e own outer
        × EntryLimits config e × IsReadableType config e × (need e ≤ fuel)
        × (length (own ∷ outer) + declaring e ≤ max (length (own ∷ outer)) config.max_nesting_depth)) }
{}

/// The scopes, the bytes and the fuel alone decide which core type is made, and the rest of the bytes and of the fuel.
pub fn core_types_are_decided()
    ensures { (config : Config) (around : Scope) (fuel : ℕ)
        → IsDecided (λ bytes (made : CoreEntry × ℕ) rest. MadeCore config around bytes fuel made.0 rest made.1) }
{}

/// The script of a core type that is well formed in its scope and within the limits, whose names can be read and for
/// which the fuel lasts, is read as that type.
pub fn core_scripts_are_read()
    ensures { (config : Config) (around : Scope) (fuel : ℕ) (e : CoreEntry)
        → FormedCore e around.core_types → CoreLimits config e → IsReadableCore config e → core_need e ≤ fuel
        → length around.core_types ≤ 2 ^ 63 → config.max_name_length < 2 ^ 64
        → IsReadAs (λ bytes made rest. MadeCore config around bytes fuel made rest (fuel - core_cost e))
        (script_core config around fuel e) e }
{}

/// A core type that is made, on any input, is well formed in its scope, within the limits and its fuel, and its names
/// can be read.
pub fn made_core_types_are_readable()
    ensures { (config : Config) (around : Scope) (bytes : List ℕ) (fuel : ℕ) (e : CoreEntry) (rest : List ℕ) (left : ℕ)
        → MadeCore config around bytes fuel e rest left
        → FormedCore e around.core_types × CoreLimits config e × IsReadableCore config e × (core_need e ≤ fuel)
        × (left ≤ fuel - core_cost e) }
{}

/// The script of such a core type is bytes.
pub fn core_scripts_are_bytes()
    ensures { (config : Config) (around : Scope) (fuel : ℕ) (e : CoreEntry)
        → FormedCore e around.core_types → CoreLimits config e → IsReadableCore config e → core_need e ≤ fuel
        → length around.core_types ≤ 2 ^ 63 → config.max_name_length < 2 ^ 64
        → AreBytes (script_core config around fuel e) }
{}

/// A core type is read, on some input, exactly if it is well formed in its scope and within the limits, its names can
/// be read, and there is fuel for it.
pub fn core_types_are_exact()
    ensures { (config : Config) (around : Scope) (fuel : ℕ) (e : CoreEntry)
        → length around.core_types ≤ 2 ^ 63 → config.max_name_length < 2 ^ 64
        → ((bytes rest : List ℕ) × AreBytes bytes × (left : ℕ) × MadeCore config around bytes fuel e rest left)
        ↔ (FormedCore e around.core_types × CoreLimits config e × IsReadableCore config e × (core_need e ≤ fuel)) }
{}
