//! The laws of a warp at the words of operations, each as a contract. The functions themselves do nothing.
ghost use Rattle.image_warps.specs.Laws.{EnterLaw, ImageLaw, LaunchesAreLaid, StartLaw};

/// In one step a warp at the words makes a word of a block, in which no lane asks for anything; or its operation, exactly one step of the
/// warp of the code with the same answers; or it traps at a failed check, by its least active lane.
pub fn image_law()
    ensures { ImageLaw }
{}

/// The step that enters a loop takes no word.
pub fn enter_law()
    ensures { EnterLaw }
{}

/// A warp that starts at a place is the warp at the words that starts at its address, whatever words the frames have.
pub fn start_law()
    ensures { StartLaw }
{}

/// What the law asks of the addresses is so in every accepted launch.
pub fn launches_are_laid()
    ensures { LaunchesAreLaid }
{}
