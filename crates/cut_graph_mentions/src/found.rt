//! Mentions that are found one after another.

ghost use Rattle.std.specs.Prelude.{◌≡◌, [], ◌∷◌, Some, IfOk};
ghost use Rattle.c_builtins.specs.Table.{number_of};
ghost use Rattle.cut_graph_rules.specs.declared.mention.Mention.TheVariants.{Function};
ghost use Rattle.cut_graph_rules.specs.Mentions.{written_at};
ghost use Rattle.cut_graph_mentions.specs.Growing.{IsAdded};

use c_builtins::Builtin;
use c_syntax::Seq;
use cut_graph_rules::Mention;
use std::alloc::{AllocError, Global};
use std::marker::Model;

/// Mentions, or that memory ran out: then nothing more is added to them.
#[derive(Drop)]
pub(crate) struct Found {
    items: Vec<Mention>,
    is_full: bool,
}

impl Model for Found {
    ghost use Rattle.std.specs.Prelude.{List, Option, Some, None, if◌then◌else◌};
    ghost use Rattle.cut_graph_rules.specs.declared.mention.Mention.{Mention};

    ghost Value = { Option (List Mention) };

    ghost view = { λ f. if f.is_full then None else Some f.items.items };
}

impl Found {
    /// No mention.
    pub(crate) fn new(alloc: Global) -> Found
        ensures { result ≡ Some [] }
    {
        Found {
            items: Vec::new(alloc),
            is_full: false,
        }
    }

    /// Adds the mention.
    pub(crate) fn put(&mut self, mention: Mention)
        ensures { IsAdded self.old (mention ∷ []) self.new }
    {
        if self.items.push(mention).is_err() {
            self.is_full = true;
        }
    }

    /// Adds that a builtin is named.
    pub(crate) fn put_builtin(&mut self, builtin: Builtin)
        ensures { IsAdded self.old (Function (number_of builtin) ∷ []) self.new }
    {
        self.put(Mention::Function(u32::from(builtin.number())));
    }

    /// Adds that the global at a place is written, where there is one.
    pub(crate) fn put_written(&mut self, place: Option<u32>)
        ensures { IsAdded self.old (written_at place) self.new }
    {
        if let Some(place) = place {
            self.put(Mention::Written(place));
        }
    }

    /// The mentions. `AllocError` where memory ran out.
    pub(crate) fn finish(self) -> Result<Seq<Mention>, AllocError>
        ensures { IfOk result (λ s. self ≡ Some s) }
    {
        let Found { items, is_full } = self;
        if is_full {
            Err(AllocError)
        } else {
            Ok(Seq::from(items))
        }
    }
}
