//! Laws of the definitions alone: each body does nothing, and the contract is the law.

ghost use Rattle.std.specs.Prelude.{◌≡◌, ◌∷◌, [], ℕ, List, Some};
ghost use Rattle.pay_text.specs.Cutting.{lines_after};
ghost use Rattle.pay_text.specs.Lines.{lines_within};
ghost use Rattle.pay_text.specs.Numbers.{IsNumber, number_of};
ghost use Rattle.pay_text.specs.Words.{AreWords, IsWord, joined_words, words_of};

/// States that a word is at most one number, and that reading is the inverse of writing.
// promise: lines and words
pub fn a_word_is_one_number()
    ensures reads { (word : List ℕ) (n : ℕ) → IsNumber word n → number_of word ≡ Some n }
    ensures writes { (word : List ℕ) (n : ℕ) → number_of word ≡ Some n → IsNumber word n }
{}

/// States that words joined by blanks are read back as these words.
// promise: lines and words
pub fn words_are_joined()
    ensures law { (word : List ℕ) (words : List (List ℕ)) → IsWord word → AreWords words
        → words_of (joined_words word words) ≡ word ∷ words }
{}

/// States that lines which are cut as a text comes are the lines of the whole text.
// promise: lines and words
pub fn lines_come_in_order()
    ensures law { (bound : ℕ) (text : List ℕ)
        → lines_after bound (Some []) text ≡ lines_within bound text }
{}
