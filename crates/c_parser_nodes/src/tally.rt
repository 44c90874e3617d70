// How many nodes a piece of a tree has.

ghost use Rattle.std.specs.Prelude.{◌≡◌};
ghost use Rattle.c_parser_nodes.specs.Counts.{is_same_list as is_same};
ghost use Rattle.c_parser_nodes.specs.Tallies.{declared, extended, first_list, leaf, named, no_tally, with_struct};

/// How many nodes a piece has, with those of annotations where a list of them may stand before several names.
#[derive(Clone, Copy)]
pub struct Tally {
    /// All of them; the greatest number stands for more too.
    pub nodes: usize,
    /// Of a declaration, all but those of its annotations. Of several, all, where a list before some of them counts once.
    pub once: usize,
    /// Where the piece's list of annotations begins, if it has any. Of several declarations, that of the last.
    pub list: Option<u32>,
}

impl Tally {
    /// That of a piece that has no node.
    pub fn none() -> Self
        ensures { result ≡ no_tally }
    {
        Tally {
            nodes: 0,
            once: 0,
            list: None,
        }
    }

    /// That of an annotation that begins there.
    pub fn annotation(from: u32) -> Self
        ensures { result ≡ leaf from }
    {
        Tally {
            nodes: 0,
            once: 0,
            list: Some(from),
        }
    }

    /// That of a list with one more at its end.
    pub fn extended(self, last: Self) -> Self
        ensures { result ≡ extended self last }
    {
        Tally {
            nodes: self.nodes.saturating_add(last.nodes),
            once: self.once,
            list: first_of(self.list, last.list),
        }
    }

    /// That of a declaration with so many nodes after these annotations.
    pub fn declared(self, nodes: usize) -> Self
        ensures { result ≡ declared self nodes }
    {
        Tally {
            nodes: self.nodes.saturating_add(nodes),
            once: nodes,
            list: self.list,
        }
    }

    /// That of declarations with one more, whose annotations don't count where the last has the same list.
    pub fn named(self, name: Self) -> Self
        ensures { result ≡ named self name }
    {
        let added = if is_same_list(self.list, name.list) {
            name.once
        } else {
            name.nodes
        };
        Tally {
            nodes: self.nodes.saturating_add(name.nodes),
            once: self.once.saturating_add(added),
            list: name.list,
        }
    }

    /// That of declarations with one more, a struct's definition with these members.
    pub fn with_struct(self, members: Self) -> Self
        ensures { result ≡ with_struct self members }
    {
        Tally {
            nodes: self.nodes.saturating_add(members.nodes),
            once: self.once.saturating_add(members.nodes),
            list: None,
        }
    }
}

// Where the first of two lists in one begins.
fn first_of(first: Option<u32>, second: Option<u32>) -> Option<u32>
    ensures { result ≡ first_list first second }
{
    match first {
        None => second,
        Some(_) => first,
    }
}

// Whether two lists begin at one place.
fn is_same_list(before: Option<u32>, own: Option<u32>) -> bool
    ensures { result ≡ is_same before own }
{
    match (before, own) {
        (Some(before), Some(own)) => before == own,
        _ => false,
    }
}
