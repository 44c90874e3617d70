//! What a program mentions.

ghost use Rattle.std.specs.Prelude.{◌≡◌};
ghost use Rattle.cut_graph_rules.specs.Sources.{mentioned};

use c_syntax::Seq;
use cut_graph_rules::Mention;
use std::marker::Model;

/// What each function mentions, by its number less 16, and what the value of each global mentions, by place; in the order of
/// the source, as often as it does.
#[derive(Drop)]
pub struct Mentions {
    functions: Vec<Seq<Mention>>,
    globals: Vec<Seq<Mention>>,
}

impl Model for Mentions {
    ghost use Rattle.cut_graph_rules.specs.Sources.{Mentioned, mentioned};

    ghost Value = { Mentioned };

    ghost view = { λ m. mentioned m.functions.items m.globals.items };
}

impl Mentions {
    /// Of functions and globals that mention this.
    pub(crate) fn new(functions: Vec<Seq<Mention>>, globals: Vec<Seq<Mention>>) -> Mentions
        ensures { result ≡ mentioned functions.items globals.items }
    {
        Mentions { functions, globals }
    }

    /// What each function mentions.
    pub fn functions(&self) -> &[Seq<Mention>]
        ensures { result.now ≡ self.now.functions }
    {
        &self.functions
    }

    /// What the value of each global mentions.
    pub fn globals(&self) -> &[Seq<Mention>]
        ensures { result.now ≡ self.now.globals }
    {
        &self.globals
    }
}
