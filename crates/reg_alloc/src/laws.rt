//! Laws of the words of a kernel, each as a contract. The functions themselves do nothing.
ghost use Rattle.reg_alloc.specs.Laws.{BasedFromBegin, BlocksStand, JumpsLand, LanesAreKept, PlacesAreWithin, WordsAreCounted, WordsDecode};

/// The block of each operation stands where its place begins.
pub fn blocks_stand()
    ensures { BlocksStand }
{}

/// There are as many words as the operations come to.
pub fn words_are_counted()
    ensures { WordsAreCounted }
{}

/// No place begins behind the last word.
pub fn places_are_within()
    ensures { PlacesAreWithin }
{}

/// A jump between two of the first 65,536 words, or to the address just behind them, leads to the word that it is made for.
pub fn jumps_land()
    ensures { JumpsLand }
{}

/// Each word of a kernel of at most 256 registers and 65,536 words is read as the instruction that it was made of.
pub fn words_decode()
    ensures { WordsDecode }
{}

/// A lane alone at the words of a kernel asks for what the lane of the code asks for, and for nothing else, a barrier's turns left out.
pub fn lanes_are_kept()
    ensures { LanesAreKept }
{}

/// A lane that begins where a warp may begin has passed such a place before it uses an address that is found there.
pub fn based_from_begin()
    ensures { BasedFromBegin }
{}
