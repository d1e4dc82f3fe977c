// Bytes as a text.

ghost use Rattle.std.specs.Prelude.{◌≡◌, IfSome, None};
ghost use Rattle.std.specs.Str.{IsUtf8};

/// The bytes as a text, if they are one. It looks at each byte once.
pub fn text_of(word: &[u8]) -> Option<&str>
    ensures read { IfSome result (λ text. text.now ≡ word.now) }
    ensures refused { result ≡ None → IsUtf8 word.now → ⊥ }
{
    match std::str::from_utf8(word) {
        Ok(text) => Some(text),
        Err(_) => None,
    }
}
