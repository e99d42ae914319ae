ghost use Rattle.std.specs.Prelude.{◌≡◌, ◌∷◌, ◌++◌, [], ℕ, List, All, false};
ghost use Rattle.rx_print.specs.Escape.{AreBytes, escaped, is_mark, read};
ghost use Rattle.rx_print.specs.JsonData.{ReadsAs, Text};
ghost use Rattle.rx_print.specs.declared.style.Style.{Style};
ghost use Rattle.rx_print.specs.declared.style.Style.TheVariants.{Json};

/// Whatever the bytes are, no byte is written that ends the place where they stand, or that isn't printable.
pub fn no_mark_is_written()
    ensures { (style : Style) → (bytes : List ℕ) → AreBytes bytes
        → All (λ b. is_mark style b ≡ false) (escaped style bytes) }
{}

/// What is written is read as the bytes that were to be written. So different bytes are never written alike.
pub fn read_back()
    ensures { (style : Style) → (bytes : List ℕ) → AreBytes bytes → read style (escaped style bytes) ≡ bytes }
{}

/// A text escaped for JSON stands between quotes as a string of JSON, which is read as its bytes, each as the character of
/// that number.
pub fn string_reads_as_json()
    ensures { (bytes : List ℕ) → ReadsAs (34 ∷ (escaped Json bytes ++ 34 ∷ [])) (Text bytes) }
{}
