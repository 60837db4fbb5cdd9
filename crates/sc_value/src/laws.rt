//! What the lines, the words, the pieces and the numbers of texts are.
#![tactic(auto)]

ghost use Rattle.std.specs.Prelude.{◌≡◌, ◌≢◌, ◌==◌, ℕ, List, [], ◌∷◌};
ghost use Rattle.std.specs.List.{slice_split};
ghost use Rattle.sc_value.specs.Lines.{AreLines, text_lines};
ghost use Rattle.sc_value.specs.Numbers.{NumbersAreSpelled};
ghost use Rattle.sc_value.specs.Words.{AreCut, AreWords, cut_at, words_of};

/// The law of lines. A call does nothing.
pub fn laws_of_lines()
    ensures { (bytes : List ℕ) → AreLines bytes (text_lines bytes) }
{}

/// The laws of words and of pieces. A call does nothing.
pub fn laws_of_words()
    ensures words { (t : List ℕ) → AreWords t (words_of t) }
    ensures cut { (separator t : List ℕ) → separator ≢ []
        → AreCut separator t (cut_at separator t) }
    ensures byte { (c : ℕ) (t : List ℕ) → cut_at (c ∷ []) t ≡ slice_split (λ b. b == c) t }
{}

/// The law of numbers that texts write. A call does nothing.
pub fn laws_of_numbers()
    ensures { NumbersAreSpelled }
{}
