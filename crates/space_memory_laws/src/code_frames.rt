//! That the frames of code are frames of memory, as the contract of a function that does nothing.

ghost use Rattle.space_memory_laws.specs.CodeFrames.{FramesAreThoseOfCode};

/// Arguments that are set in a frame at the places of a function's parameters make the bytes with which code enters the
/// function.
pub fn frames_are_those_of_code()
    ensures { FramesAreThoseOfCode }
{}
