//! What of a call doesn't depend on all of its values, as contracts of functions that do nothing.

ghost use Rattle.stub_calls.specs.Laws.{CachingIsOfTheFunction, KeysAreOfArguments};

/// The keys of a call and the functions that it registers are the same whatever its result.
pub fn keys_are_of_arguments()
    ensures { KeysAreOfArguments }
{}

/// Whether equal returns are written once is the same at all calls of a function.
pub fn caching_is_of_the_function()
    ensures { CachingIsOfTheFunction }
{}
