//! Laws of reading. Each function does nothing: its contract is the law.
#![tactic(auto, using(crate::proofs::LawLemmas::laws))]

ghost use Rattle.std.specs.Prelude.{◌≡◌, ℕ, ◌^◌, ◌<◌, ◌≤◌, ◌↔◌, Bool, true, false, List, [], ◌∷◌, ◌++◌, length, map};
ghost use Rattle.std.specs.Prelude.{replicate, codes, IsUtf8};
ghost use Rattle.smith_input.specs.Reading.{Flips, GoesOn, Reads, More, IsDecided, IsReadAs, LeavesTail};
ghost use Rattle.smith_input.specs.Script.{pick, AreBytes, script_bytes, script_end, script_more, script_text};
ghost use Rattle.smith_input.specs.Script.{script_name};
ghost use Rattle.smith_input.specs.Texts.{ReadsBytes, ReadsText, ReadsNewText};
ghost use Rattle.smith_input.specs.Kebab.{Kebab};
ghost use Rattle.smith_input.specs.Names.{ReadsKebab, ReadsNew};
ghost use Rattle.smith_input.specs.NewNames.{IsMadeNew, IsMadeUnique, is_among};
ghost use Rattle.smith_input.specs.NameScript.{is_within, IsReachable, IsReachableText, script_within, script_new};
ghost use Rattle.smith_input.specs.NameScript.{script_new_text};

/// The script of a choice is read as that choice.
pub fn pick_is_read()
    ensures { (n k : ℕ) → n ≤ 2 ^ 64 → k < n → IsReadAs (Reads n) (pick n k) k }
{}

/// The bytes alone decide what a choice reads, and what it leaves.
pub fn choices_are_decided()
    ensures { (n : ℕ) → IsDecided (Reads n) }
{}

/// The bytes alone decide whether a loop goes on, and what its question leaves.
pub fn loops_are_decided()
    ensures { (bits done min max : ℕ) → IsDecided (More bits done min max) }
{}

/// A choice leaves a tail of the bytes.
pub fn choices_leave_a_tail()
    ensures { (n : ℕ) → LeavesTail (Reads n) }
{}

/// A loop's question leaves a tail of the bytes.
pub fn loops_leave_a_tail()
    ensures { (bits done min max : ℕ) → LeavesTail (More bits done min max) }
{}

/// A loop that looks at one bit goes on by a boolean.
pub fn one_bit_is_a_boolean()
    ensures { (bytes : List ℕ) (answer : Bool) (rest : List ℕ)
        → GoesOn 1 bytes answer rest ↔ Flips bytes answer rest }
{}

/// What a script says of a loop's turns is read as that, whatever number of bits the loop looks at.
pub fn loops_keep_their_scripts()
    ensures goes_on { (bits done min max : ℕ) → done < max
        → IsReadAs (More bits done min max) (script_more min done) true }
    ensures ends { (bits done min max : ℕ) → min ≤ done → done ≤ max
        → IsReadAs (More bits done min max) (script_end done max) false }
{}

/// The script of bytes of any length is read as them.
pub fn bytes_are_read()
    ensures { (values : List ℕ) → IsReadAs ReadsBytes (script_bytes values) values }
{}

/// The script of a text is read as that text.
pub fn text_is_read()
    ensures { (max : ℕ) (text : List ℕ) → max < 2 ^ 64 → IsUtf8 text → length text ≤ max
        → IsReadAs (ReadsText max) (script_text max text) text }
{}

/// The script of a name is read as that name.
pub fn name_is_read()
    ensures { (max : ℕ) (name : List ℕ) → max < 2 ^ 64 → Kebab name → length name ≤ max
        → IsReadAs (ReadsKebab max) (script_name max name) name }
{}

/// A name that equals none of the names stays as it was read.
pub fn new_name_is_kept()
    ensures { (has : List ℕ → Bool) (size : ℕ) (text : List ℕ) → has text ≡ false → IsMadeUnique has size text text }
{}

/// The bytes alone decide which bytes of any length are read, and the rest.
pub fn bytes_are_decided()
    ensures { IsDecided ReadsBytes }
{}

/// The bytes alone decide which text is read, and the rest.
pub fn texts_are_decided()
    ensures { (max : ℕ) → IsDecided (ReadsText max) }
{}

/// The bytes alone decide which name is read, and the rest.
pub fn names_are_decided()
    ensures { (max : ℕ) → IsDecided (ReadsKebab max) }
{}

/// The existing names decide what a text that was read becomes.
pub fn unique_names_are_decided()
    ensures { (has : List ℕ → Bool) (size : ℕ) (text a b : List ℕ) → IsMadeUnique has size text a
        → IsMadeUnique has size text b → a ≡ b }
{}

/// Bytes of any length leave a tail of the bytes.
pub fn bytes_leave_a_tail()
    ensures { LeavesTail ReadsBytes }
{}

/// A text leaves a tail of the bytes.
pub fn texts_leave_a_tail()
    ensures { (max : ℕ) → LeavesTail (ReadsText max) }
{}

/// A name leaves a tail of the bytes.
pub fn names_leave_a_tail()
    ensures { (max : ℕ) → LeavesTail (ReadsKebab max) }
{}

/// A name that is read is in kebab case.
pub fn names_are_kebab()
    ensures { (max : ℕ) (bytes name rest : List ℕ) → ReadsKebab max bytes name rest → Kebab name }
{}

/// A name in kebab case that is made unique stays in kebab case.
pub fn unique_names_are_kebab()
    ensures { (has : List ℕ → Bool) (size : ℕ) (text name : List ℕ) → Kebab text
        → IsMadeUnique has size text name → Kebab name }
{}

/// The script of a name of at most `max` bytes, or of one more that ends in `-a`, is read as that name.
pub fn kebab_names_are_read()
    ensures { (max : ℕ) (name : List ℕ) → max < 2 ^ 64 → Kebab name → is_within max name ≡ true
        → IsReadAs (ReadsKebab max) (script_within max name) name }
{}

/// The names in kebab case of these lengths are read from some bytes, and no others.
pub fn kebab_names_are_exact()
    ensures { (max : ℕ) (name : List ℕ) → max < 2 ^ 64
        → ((bytes rest : List ℕ) × AreBytes bytes × ReadsKebab max bytes name rest)
        ↔ (Kebab name × (is_within max name ≡ true)) }
{}

/// If some name that can be read becomes a new name, the new name's script is read as it.
pub fn new_names_are_read()
    ensures { (max : ℕ) (names : List (List ℕ)) (name : List ℕ) → max < 2 ^ 64 → Kebab name
        → is_among names name ≡ false → IsReachable max names name
        → IsReadAs (ReadsNew max names) (script_new max (length names) name) name }
{}

/// These new names are read from some bytes, and no others.
pub fn new_names_are_exact()
    ensures { (max : ℕ) (names : List (List ℕ)) (name : List ℕ) → max < 2 ^ 64
        → ((bytes rest : List ℕ) × AreBytes bytes × ReadsNew max names bytes name rest)
        ↔ (Kebab name × (is_among names name ≡ false) × IsReachable max names name) }
{}

/// If some text that can be read becomes a new text, the new text's script is read as it.
pub fn new_texts_are_read()
    ensures { (max : ℕ) (names : List (List ℕ)) (name : List ℕ) → max < 2 ^ 64 → IsUtf8 name
        → is_among names name ≡ false → IsReachableText max names name
        → IsReadAs (ReadsNewText max names) (script_new_text max (length names) name) name }
{}

/// These new texts are read from some bytes, and no others.
pub fn new_texts_are_exact()
    ensures { (max : ℕ) (names : List (List ℕ)) (name : List ℕ) → max < 2 ^ 64
        → ((bytes rest : List ℕ) × AreBytes bytes × ReadsNewText max names bytes name rest)
        ↔ (IsUtf8 name × (is_among names name ≡ false) × IsReachableText max names name) }
{}

/// The scripts of new names and texts are bytes.
#[tactic(auto, using(crate::proofs::ScriptBytes::small_new, crate::proofs::ScriptBytes::small_new_text))]
pub fn new_name_scripts_are_bytes()
    ensures names { (max count : ℕ) (name : List ℕ) → max < 2 ^ 64 → Kebab name
        → AreBytes (script_new max count name) }
    ensures texts { (max : ℕ) (names : List (List ℕ)) (name : List ℕ) → max < 2 ^ 64
        → AreBytes name → IsReachableText max names name → AreBytes (script_new_text max (length names) name) }
{}

/// The script of a name of at most `max` bytes spells the name as it is, whatever names there are.
pub fn short_names_stay()
    ensures names { (max count : ℕ) (name : List ℕ) → length name ≤ max
        → script_new max count name ≡ script_name max name }
    ensures texts { (max count : ℕ) (name : List ℕ) → length name ≤ max
        → script_new_text max count name ≡ script_text max name }
{}

/// The script of a name within a length is read as it within a greater length too.
pub fn shorter_names_stay()
    ensures kebab { (n m : ℕ) (name : List ℕ) → 1 ≤ n → n ≤ m → m < 256 → Kebab name → is_within n name ≡ true
        → IsReadAs (ReadsKebab m) (script_within n name) name }
    ensures new { (n m : ℕ) (names : List (List ℕ)) (name : List ℕ) → 1 ≤ n → n ≤ m → m < 256 → Kebab name
        → IsReachable n names name → IsReadAs (ReadsNew m names) (script_new n (length names) name) name }
{}

/// Names that can be read, and one that can't: a last `a` for which nothing is chosen, and digits twice after a text.
pub fn worked_names()
    ensures hyphen { (is_within 2 (codes "a-a") ≡ true) × (script_within 2 (codes "a-a") ≡ 2 ∷ 0 ∷ 36 ∷ []) }
    ensures longest { is_within 100 (replicate 99 97 ++ codes "-a") ≡ true }
    ensures nothing { (is_within 0 (codes "a") ≡ true) × (script_within 0 (codes "a") ≡ []) }
    ensures no_hyphen { is_within 2 (codes "aaa") ≡ false }
    ensures twice { let names = codes "x" ∷ codes "x11" ∷ map (λ c. c ∷ []) (codes "abcdefghi") in
        (length names ≡ 11) × IsMadeNew names (codes "x") (codes "x1111")
        × (script_new 1 11 (codes "x1111") ≡ 1 ∷ 23 ∷ []) }
{}
