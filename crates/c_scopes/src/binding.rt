//! Names with their meanings, in the order in which they were declared.

ghost use Rattle.std.specs.Prelude.{◌≡◌, ◌<◌, length, reverse, take, OnOk, OnErr};
ghost use Rattle.c_scopes.specs.Bindings.{Ties, bound, innermost_start};

use std::alloc::AllocError;

/// A name with its meaning. Names go by their numbers.
#[derive(Clone, Copy)]
pub(crate) struct Binding<V: Copy> {
    pub(crate) name: usize,
    pub(crate) meaning: V,
    /// The place of the binding of the same name that this one hides.
    pub(crate) hidden: Option<usize>,
}

/// Puts a binding of a name after all others.
pub(crate) fn bind<V: Copy>(
    bindings: &mut Vec<Binding<V>>,
    places: &mut [Option<usize>],
    name: usize,
    meaning: V,
) -> Result<(), AllocError>
    requires name { name < length places.old }
    requires ties { Ties places.old (reverse bindings.old.items) }
    ensures bound { OnOk result (bindings.new.items ≡ bound name meaning bindings.old.items) }
    ensures ties { Ties places.new (reverse bindings.new.items) }
    ensures err { OnErr result (bindings.new.items ≡ bindings.old.items) }
{
    let place = bindings.len();
    bindings.push(Binding {
        name,
        meaning,
        hidden: places[name],
    })?;
    places[name] = Some(place);
    Ok(())
}

/// Takes the bindings from a place on away. What they hid is seen again.
pub(crate) fn take_back<V: Copy>(
    bindings: &mut Vec<Binding<V>>,
    places: &mut [Option<usize>],
    start: usize,
)
    requires ties { Ties places.old (reverse bindings.old.items) }
    ensures rest { bindings.new.items ≡ take start bindings.old.items }
    ensures ties { Ties places.new (reverse bindings.new.items) }
{
    while bindings.len() > start {
        let Some(binding) = bindings.pop() else {
            unreachable!("there are bindings after the start")
        };
        places[binding.name] = binding.hidden;
    }
}

/// Where the bindings of the innermost scope begin, by where those of each scope but the outermost do.
pub(crate) fn last_start(starts: &[usize]) -> usize
    ensures { result ≡ innermost_start (reverse starts.now) }
{
    match starts {
        [.., last] => *last,
        [] => 0,
    }
}
