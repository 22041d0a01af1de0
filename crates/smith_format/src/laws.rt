//! Laws of encodings, and of reads of core types. Each function does nothing: its contract is the law.
#![tactic(auto, using(crate::proofs::LawLemmas::laws))]

ghost use Rattle.std.specs.Prelude.{◌≡◌, ◌↔◌, ◌⊎◌, ℕ, ◌+◌, ◌/◌, ◌%◌, ◌^◌, ◌<◌, ◌≤◌, List, [], ◌∷◌, length, None, ℤ};
ghost use Rattle.std.specs.Prelude.{pos, negsuc, ◌≤ℤ◌, ◌<ℤ◌, Bool, Any, IsUtf8};
ghost use Rattle.std.specs.List.{AllByRecursion};
ghost use Rattle.smith_input.specs.Reading.{IsDecided, IsReadAs};
ghost use Rattle.smith_input.specs.Script.{AreBytes};
ghost use Rattle.smith_format.specs.Clear.{IsClear, IsExact};
ghost use Rattle.smith_format.specs.CoreFormed.{FormedFunction, FormedMemory};
ghost use Rattle.smith_format.specs.CoreReading.{ReadsMemory, ReadsTable, ReadsTag, ReadsFunction};
ghost use Rattle.smith_format.specs.CoreScript.{script_function, script_memory};
ghost use Rattle.smith_format.specs.CoreTypes.{Function, core_val, core_function};
ghost use Rattle.smith_format.specs.Entities.{CoreImport, entity, core_import};
ghost use Rattle.smith_format.specs.Limits.{configured, max_results};
ghost use Rattle.smith_format.specs.Numbers.{unsigned, signed};
ghost use Rattle.smith_format.specs.Division.{low_bits, high_bits};
ghost use Rattle.smith_format.specs.declared.config.Config.{Config};
ghost use Rattle.smith_format.specs.declared.types.MemoryType.{MemoryType};
ghost use Rattle.smith_format.specs.declared.types.ValType.{ValType};
ghost use Rattle.smith_format.specs.TooLong.{ValTooLong, FunctionTooLong, EntityTooLong, ImportTooLong};
ghost use Rattle.smith_format.specs.declared.types.EntityType.{EntityType};
ghost use Rattle.smith_format.specs.Piece.{Piece, ◌⊕◌, bytes, u, number, s, s_index, text, raw, many, sized};

/// An unsigned number below 128 is one byte. Any other begins with the byte of its lowest seven bits and 128
/// more, and goes on as the number without them.
pub fn unsigned_numbers()
    ensures last { (n : ℕ) → n < 128 → unsigned n ≡ n ∷ [] }
    ensures more { (n : ℕ) → 128 ≤ n → unsigned n ≡ (128 + n % 128) ∷ unsigned (n / 128) }
{}

/// A signed number from -64 to 63 is one byte. Any other begins with the byte of its lowest seven bits and 128
/// more, and goes on as the number divided by 128, rounded down.
pub fn signed_numbers()
    ensures last { (z : ℤ) → negsuc 63 ≤ℤ z → z ≤ℤ pos 63 → signed z ≡ low_bits z ∷ [] }
    ensures more { (z : ℤ) → pos 63 <ℤ z → signed z ≡ (128 + low_bits z) ∷ signed (high_bits z) }
    ensures less { (z : ℤ) → z <ℤ negsuc 63 → signed z ≡ (128 + low_bits z) ∷ signed (high_bits z) }
{}

/// No encoding of a number is a prefix of another of its sort, and two readings are one, whatever follows.
pub fn numbers_are_clear()
    ensures unsigned { IsClear number }
    ensures signed { IsClear s }
    ensures counts { IsClear u }
    ensures indexes { IsClear s_index }
{}

/// The same for texts.
pub fn texts_are_clear()
    ensures { IsClear text }
{}

/// The same for lists of what is read in one way.
pub fn lists_are_clear<T>()
    ensures { (f : T → Piece) → IsClear f → IsClear (many f) }
{}

/// The same for sections whose contents are read in one way from beginning to end.
pub fn sections_are_clear<T>()
    ensures sections { (id : ℕ) (f : T → Piece) → IsExact f → IsClear (λ x. sized id (f x)) }
    ensures contents { (id : ℕ) → IsClear (λ c. sized id (bytes c)) }
{}

/// Bytes that are read in one way, whatever follows, are read in one way by themselves too, and bytes as they are may
/// fill the rest.
pub fn contents_are_exact<T>()
    ensures clear { (f : T → Piece) → IsClear f → IsExact f }
    ensures filled { (f : T → Piece) → IsClear f → IsExact (λ (x : T × List ℕ). f x.0 ⊕ raw x.1) }
{}

/// A number has no encoding as a length, a count or an index exactly if it exceeds 4,294,967,295; a text or a section
/// has none exactly if its length does.
pub fn too_long_has_no_encoding()
    ensures count { (n : ℕ) → (u n ≡ None) ↔ (2 ^ 32 ≤ n) }
    ensures index { (n : ℕ) → (s_index n ≡ None) ↔ (2 ^ 32 ≤ n) }
    ensures text { (t : List ℕ) → IsUtf8 t → (text t ≡ None) ↔ (2 ^ 32 ≤ length t) }
    ensures section { (id : ℕ) (c : List ℕ) → (sized id (bytes c) ≡ None) ↔ (2 ^ 32 ≤ length c) }
{}

/// A list has no encoding exactly if its count exceeds 4,294,967,295 or one of its members has none.
pub fn long_lists_have_no_encoding<T>()
    ensures { (f : T → Piece) (xs : List T) → (many f xs ≡ None) ↔ ((2 ^ 32 ≤ length xs) ⊎ Any (λ x. f x ≡ None) xs) }
{}

/// Bytes as they are always have an encoding.
pub fn bytes_have_an_encoding()
    ensures { (bs : List ℕ) → AllByRecursion (λ b. b < 256) bs → ¬ (raw bs ≡ None) }
{}

/// A core type has no encoding exactly if a count or an index in it exceeds 4,294,967,295. What a core module imports
/// or exports has none exactly if that holds, or if a bound of its limits exceeds 64 bits, which never happens in the
/// program. An import has none exactly if what it imports has none or the length of a name exceeds 4,294,967,295.
pub fn long_core_types_have_no_encoding()
    ensures values { (v : ValType) → (core_val v ≡ None) ↔ ValTooLong v }
    ensures functions { (f : Function) → (core_function f ≡ None) ↔ FunctionTooLong f }
    ensures entities { (e : EntityType) → (entity e ≡ None) ↔ EntityTooLong e }
    ensures imports { (i : CoreImport) → IsUtf8 i.0 → IsUtf8 i.1 → (core_import i ≡ None) ↔ ImportTooLong i }
{}

/// No encoding of a core type is a prefix of another of its sort, and two readings are one, whatever follows. The same
/// holds for what a core module imports or exports, and for its imports.
pub fn core_types_are_clear()
    ensures values { IsClear core_val }
    ensures functions { IsClear core_function }
    ensures entities { IsClear entity }
    ensures imports { IsClear core_import }
{}

/// The bytes alone decide which core type is read, and the rest.
pub fn core_types_are_decided()
    ensures memories { IsDecided ReadsMemory }
    ensures tables { (references : Bool) → IsDecided (ReadsTable references) }
    ensures tags { (candidates : List ℕ) → IsDecided (ReadsTag candidates) }
    ensures functions { (bits : ℕ) (valtypes : List ValType) (max_results : ℕ)
        → IsDecided (ReadsFunction bits valtypes max_results) }
{}

/// The script of a function type of these value types is read as that type, and the script of a memory type as that
/// memory type.
pub fn core_scripts_are_read()
    ensures functions { (bits : ℕ) (valtypes : List ValType) (max_results : ℕ) (f : Function)
        → FormedFunction valtypes max_results f
        → length valtypes ≤ 2 ^ 64
        → IsReadAs (ReadsFunction bits valtypes max_results) (script_function valtypes max_results f) f }
    ensures memories { (m : MemoryType) → FormedMemory m → IsReadAs ReadsMemory (script_memory m) m }
{}

/// The scripts of function types within the limits and of memory types are bytes.
#[tactic(auto, using(crate::proofs::ScriptBytes::small_function, crate::proofs::ScriptBytes::small_memory))]
pub fn core_type_scripts_are_bytes()
    ensures functions { (config : Config) (f : Function)
        → AreBytes (script_function (configured config) (max_results config) f) }
    ensures memories { (m : MemoryType) → FormedMemory m → AreBytes (script_memory m) }
{}
