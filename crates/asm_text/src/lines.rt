//! The lines of a text.
ghost use Rattle.std.specs.Prelude.{◌≡◌, ◌<◌, ◌≤◌, ◌==◌, ◌∷◌, length, IfSome};
ghost use Rattle.std.specs.List.{position};
ghost use Rattle.asm_text.specs.Lines.{lines};

/// The place of the first line feed.
fn feed_at(text: &[u8]) -> Option<usize>
    ensures value { result ≡ position (λ b. b == 10) text.now }
    ensures within { IfSome result (λ at. at < length text.now) }
{
    text.iter().position(|byte| *byte == b'\n')
}

/// The first line of a text that is not empty, without the line feed that ends it, and the text behind that.
pub fn cut_line(text: &[u8]) -> (&[u8], &[u8])
    requires { 0 < length text.now }
    ensures cut { lines text.now ≡ result.0.now ∷ lines result.1.now }
    ensures shorter { length result.1.now < length text.now }
    ensures within { length result.0.now ≤ length text.now }
{
    match feed_at(text) {
        Some(end) => (&text[..end], &text[end + 1..]),
        None => (text, &[]),
    }
}
