/// The machine of a launch: how many cores it has, and what each of them is.
#[derive(Clone, Copy, Debug)]
pub struct Machine {
    /// How many cores there are, 1 to 8.
    pub cores: u32,
    /// By how many banks each counts its steps on the shared words, 1 to 16.
    pub banks: u32,
    /// How many sets its cache has, 1 to 64.
    pub sets: u32,
    /// How many lines a set has, 1 to 8.
    pub ways: u32,
}
