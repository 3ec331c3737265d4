//! Laws of the definitions. A function here does nothing; its contract states the law.
ghost use Rattle.std.specs.Prelude.{ℕ, List};
ghost use Rattle.object_store.specs.declared.copy.WebCopy.{WebCopy};
ghost use Rattle.object_store.specs.Listed.{IsLongestFront, fitting};

/// A law: what a store keeps after a put is the longest front of its copies within both limits.
pub fn what_fits_is_the_longest_front<T>()
    ensures { (count bytes : ℕ) (copies : List (WebCopy T)) →
        IsLongestFront count bytes copies (fitting count bytes copies) }
{}
