//! Numbers that are 32-bit words by their types. The functions do nothing: they say this of what they are given, for proofs.
ghost use Rattle.std.specs.Prelude.{slice_get};
ghost use Rattle.launch_loader.specs.Words.{AreWordArgs, AreWords, IsWordArg, IsWordIn};

use launch_plans::Arg;

/// Sizes are words.
pub fn are_words(sizes: &[u32])
    ensures { AreWords sizes.now }
{}

/// A number that is given for a parameter is a word.
fn is_word(arg: Arg)
    ensures { IsWordArg arg }
{
    match arg {
        Arg::Int(_value) => {}
        Arg::Buffer(_) | Arg::Local(_) => {}
    }
}

/// The same at a place.
fn is_word_at(args: &[Arg], place: usize)
    ensures { IsWordIn (slice_get args.now place) }
{
    if let Some(arg) = args.get(place) {
        is_word(*arg);
    }
}

/// All numbers that are given for parameters are words.
pub fn are_word_args(args: &[Arg])
    ensures { AreWordArgs args.now }
{
    for place in 0..args.len() {
        is_word_at(args, place);
    }
}
