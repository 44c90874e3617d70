//! What is mentioned.

ghost use Rattle.std.specs.Prelude.{◌≡◌};
ghost use Rattle.isolation_check_rows.specs.Rows.{place_of};

use cut_graph_rules::Mention;

/// What mentions are looked for: those of functions, of globals, or of globals that are written.
#[derive(Clone, Copy)]
pub enum MentionKind {
    Function,
    Global,
    Written,
}

impl MentionKind {
    /// What a mention names, where it is of this kind.
    pub fn place(self, mention: Mention) -> Option<u32>
        ensures { result ≡ place_of self mention }
    {
        match self {
            MentionKind::Function => match mention {
                Mention::Function(number) => Some(number),
                Mention::Global(_) | Mention::Written(_) => None,
            },
            MentionKind::Global => match mention {
                Mention::Global(place) => Some(place),
                Mention::Function(_) | Mention::Written(_) => None,
            },
            MentionKind::Written => match mention {
                Mention::Written(place) => Some(place),
                Mention::Function(_) | Mention::Global(_) => None,
            },
        }
    }
}
