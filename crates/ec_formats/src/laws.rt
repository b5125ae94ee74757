//! The laws of formats, each the contract of a function that does nothing.
ghost use Rattle.std.specs.Prelude.{◌≡◌, ◌≤◌, ◌↔◌, ℕ, Bool, true, List, [], ◌∷◌, ◌++◌, length, Ok, Err};
ghost use Rattle.ec_formats.specs.Combinators.{such_that, pair, through};
ghost use Rattle.ec_formats.specs.Fields.{byte, mark, number, integer, truth, text};
ghost use Rattle.ec_formats.specs.Format.{Format, IsBytes, IsLawful, IsSpelling, whole};
ghost use Rattle.ec_formats.specs.Lists.{optional, items_fit, EachFits, list};

/// One byte.
pub fn byte_is_lawful()
    ensures { IsLawful byte }
{}

/// A number of four bytes.
pub fn number_is_lawful()
    ensures { IsLawful number }
{}

/// Bytes that stand for no value.
pub fn mark_is_lawful()
    ensures { (sign : List ℕ) → IsLawful (mark sign) }
{}

/// A number from -2^31 to 2^31 - 1.
pub fn integer_is_lawful()
    ensures { IsLawful integer }
{}

/// A truth value.
pub fn truth_is_lawful()
    ensures { IsLawful truth }
{}

/// A text of up to so many bytes.
pub fn text_is_lawful()
    ensures { (limit : ℕ) → IsLawful (text limit) }
{}

/// A field that has to keep a rule.
pub fn such_that_is_lawful<A>()
    ensures { (f : Format A) (rule : A → Bool) → IsLawful f → IsLawful (such_that f rule) }
{}

/// A value, and another behind it whose format may depend on the first.
pub fn pair_is_lawful<A, B>()
    ensures { (f : Format A) (g : A → Format B) → IsLawful f → ((a : A) → IsLawful (g a)) → IsLawful (pair f g) }
{}

/// The same bytes for values of another type, where the two ways between the types undo each other.
pub fn through_is_lawful<A, B>()
    ensures { (to : A → B) (from : B → A) (f : Format A) → ((a : A) → f.fits a ≡ true → from (to a) ≡ a) → ((b : B) → to (from b) ≡ b)
        → IsLawful f → IsLawful (through to from f) }
{}

/// A value that may be missing.
pub fn optional_is_lawful<A>()
    ensures { (f : Format A) → IsLawful f → IsLawful (optional f) }
{}

/// A list of up to so many items, each of which may have a rule on those before it.
pub fn list_is_lawful<A>()
    ensures { (limit : ℕ) (item : List A → Format A) → ((before : List A) → IsLawful (item before)) → IsLawful (list limit item) }
{}

/// Items keep their rules exactly where each keeps those that it has behind the items before it; so one more may follow that keeps
/// its own behind them.
pub fn items_keep_their_rules<A>()
    ensures each { (item : List A → Format A) (xs : List A) → (items_fit item [] xs ≡ true) ↔ EachFits item xs }
    ensures one_more { (item : List A → Format A) (xs : List A) (x : A) → items_fit item [] xs ≡ true → (item xs).fits x ≡ true
        → items_fit item [] (xs ++ x ∷ []) ≡ true }
{}

/// What a lawful format says of all of some bytes.
pub fn lawful_wholes<A>()
    // Bytes are the spelling of one value at most.
    ensures one_value { (f : Format A) (a b : A) (bytes : List ℕ) → IsLawful f → IsSpelling f a bytes → IsSpelling f b bytes → a ≡ b }
    // What is read has these bytes, and what has them is read.
    ensures spelled { (f : Format A) (a : A) (bytes : List ℕ) → IsLawful f → IsBytes bytes → whole f bytes ≡ Ok a → IsSpelling f a bytes }
    ensures read { (f : Format A) (a : A) (bytes : List ℕ) → IsLawful f → IsSpelling f a bytes → whole f bytes ≡ Ok a }
    // A fault lies within the bytes, or just at their end.
    ensures within { (f : Format A) (left : ℕ) (bytes : List ℕ) → IsLawful f → IsBytes bytes → whole f bytes ≡ Err left
        → left ≤ length bytes }
{}
