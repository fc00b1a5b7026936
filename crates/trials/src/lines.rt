// Lines that a test compares with what it expects.
ghost use Rattle.std.specs.List.{slice_index};
ghost use Rattle.std.specs.Prelude.{◌≡◌, ◌≢◌, ℕ, ◌+◌, ◌-◌, ◌<◌, ◌∷◌, [], length, take};
ghost use Rattle.std.specs.Str.Pattern.{HasTextAt, LacksTextAt};

// What is told, without the sentence in brackets where none is expected: all where `expected` ends with a bracket, 41, and
// else what stands before the first blank and bracket, 32 and 40.
pub fn comparable<'a>(told: &'a str, expected: &str) -> &'a str
    ensures whole { slice_index expected.now (length expected.now - 1) ≡ 41 → result.now ≡ told.now }
    ensures front { result.now ≡ take (length result.now) told.now }
    ensures before { slice_index expected.now (length expected.now - 1) ≢ 41 → (i : ℕ) → i < length result.now → LacksTextAt (32 ∷ 40 ∷ []) told.now i }
    ensures at { length result.now < length told.now → HasTextAt (32 ∷ 40 ∷ []) told.now (length result.now) (length result.now + 2) }
{
    match told.split_once(" (") {
        Some((line, _)) if !expected.ends_with(')') => line,
        _ => told,
    }
}
