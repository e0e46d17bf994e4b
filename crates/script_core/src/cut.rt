//! Bytes, split at a separator.
ghost use Rattle.std.specs.Prelude.{◌≡◌, ◌<◌, length, IfSome};
ghost use Rattle.std.specs.Option.{option_copied};
ghost use Rattle.script_core.specs.Grammar.{cut};

// The bytes before the first separator, and those after it, if there is one.
pub(crate) fn cut_at<'a>(text: &'a [u8], separator: &[u8]) -> (&'a [u8], Option<&'a [u8]>)
    requires { 0 < length separator.now }
    ensures cut { (result.0.now, option_copied result.1) ≡ cut separator.now text.now }
    ensures shorter { IfSome result.1 (λ rest. length rest.now < length text.now) }
{
    for i in 0..text.len() {
        if text[i..].starts_with(separator) {
            return (&text[..i], Some(&text[i + separator.len()..]));
        }
    }
    (text, None)
}
