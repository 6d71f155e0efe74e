//! The words of directives.
ghost use Rattle.std.specs.Prelude.{◌≡◌};
ghost use Rattle.ocl_lex.specs.Lines as spec;

/// What the word behind a `#` says.
#[derive(Clone, Copy, Debug, PartialEq, Eq)]
pub enum DirectiveWord {
    /// `define`: a name and its replacement.
    Define,
    /// `undef`: a name that is no macro from here on.
    Undef,
    /// `ifdef`: what follows is read where a name is a macro.
    Ifdef,
    /// `ifndef`: what follows is read where a name is no macro.
    Ifndef,
    /// `else`: what follows is read where the part before is not.
    Else,
    /// `endif`: the end of a condition.
    Endif,
    /// `pragma`, which says nothing.
    Pragma,
}

const WORDS: [DirectiveWord; 7] = [
    DirectiveWord::Define,
    DirectiveWord::Undef,
    DirectiveWord::Ifdef,
    DirectiveWord::Ifndef,
    DirectiveWord::Else,
    DirectiveWord::Endif,
    DirectiveWord::Pragma,
];

fn directive_name(word: DirectiveWord) -> &'static [u8]
    ensures { result.now ≡ spec.directive_name word }
{
    match word {
        DirectiveWord::Define => b"define",
        DirectiveWord::Undef => b"undef",
        DirectiveWord::Ifdef => b"ifdef",
        DirectiveWord::Ifndef => b"ifndef",
        DirectiveWord::Else => b"else",
        DirectiveWord::Endif => b"endif",
        DirectiveWord::Pragma => b"pragma",
    }
}

/// The word of a directive that some bytes are.
#[tactic(auto, unfolding(crate::specs::Lines::directive_named))]
pub fn directive_named(text: &[u8]) -> Option<DirectiveWord>
    ensures { result ≡ spec.directive_named text.now }
{
    WORDS
        .iter()
        .copied()
        .find(|word| directive_name(*word) == text)
}
