//! Laws of the definitions, each carried by a function that does nothing.

ghost use Rattle.core_bytes.specs.ByteLaws.{EveryAnswerFits, EveryByteAnswers, EveryByteEnds, EveryWordStays};

/// Where every core gives up its oldest line: a byte that no other core writes ends as the core's own deeds leave it, for
/// every number of sets, ways and waiting changes.
pub fn ends_own()
    ensures { EveryByteEnds }
{}

/// Where every core gives up its oldest line: a read's byte that no other core wrote at a lesser place is what the core's own
/// deeds before it left, or the opening byte, for every number of sets, ways and waiting changes.
pub fn answers_own()
    ensures { EveryByteAnswers }
{}

/// Where every core gives up its oldest line, the words at the beginning are below 2^32, and so is what is written to whole words:
/// at each moment of the history all words are below 2^32, and what a read answers fits its field.
pub fn fits()
    ensures words { EveryWordStays }
    ensures answers { EveryAnswerFits }
{}
