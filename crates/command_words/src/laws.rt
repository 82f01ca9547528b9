//! What words mean, as a whole.
ghost use Rattle.std.specs.Prelude.{◌≡◌, ◌↔◌, ℕ, List, Option, Some};
ghost use Rattle.command_words.specs.CommandLines.{IsCountsLine, IsPathLine, IsPacketsLine, IsRetiredLine, IsSelftestLine, IsTimesLine, IsTraceLine};
ghost use Rattle.command_words.specs.Words.{Counts, Intake, Path, Packets, Program, Retired, Selftest, Times, Trace, meaning};

/// Words mean a command exactly where they are a line of it: pieces in any order, which are its options with their numbers, each at
/// most once, of `--raw`, `--wrap` and `--sync`, which tell the layout, at most one, and its positional, which may also stand behind
/// `--`.
pub fn words_mean_what_they_spell()
    ensures path { (words : List (List ℕ)) (program : Program) (intake : Intake)
        → (meaning words ≡ Some (Path program intake)) ↔ IsPathLine words program intake }
    ensures counts { (words : List (List ℕ)) (program : Program) (intake : Intake)
        → (meaning words ≡ Some (Counts program intake)) ↔ IsCountsLine words program intake }
    ensures packets { (words : List (List ℕ)) (intake : Intake) → (meaning words ≡ Some (Packets intake)) ↔ IsPacketsLine words intake }
    ensures times { (words : List (List ℕ)) (intake : Intake) → (meaning words ≡ Some (Times intake)) ↔ IsTimesLine words intake }
    ensures retired { (words : List (List ℕ)) (program : Program) → (meaning words ≡ Some (Retired program)) ↔ IsRetiredLine words program }
    ensures trace { (words : List (List ℕ)) (program : Program) (last every : Option ℕ)
        → (meaning words ≡ Some (Trace program last every)) ↔ IsTraceLine words program last every }
    ensures selftest { (words : List (List ℕ)) (n : ℕ) (cut : Option ℕ) → (meaning words ≡ Some (Selftest n cut)) ↔ IsSelftestLine words n cut }
{}
