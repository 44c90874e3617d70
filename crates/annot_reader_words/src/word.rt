//! The words of annotations.

ghost use Rattle.std.specs.Prelude.{◌≡◌, codes};
ghost use Rattle.c_scopes.specs.Scopes.{same_name};
ghost use Rattle.annot_reader_words.specs.Words.{function_word, parameter_word};

/// A word that stands at a function.
#[derive(Clone, Copy)]
pub enum FunctionWord {
    Cut,
    Sync,
    Commit,
    Cache,
    Holds,
}

/// A word that stands at a parameter.
#[derive(Clone, Copy)]
pub enum ParameterWord {
    In,
    Out,
    Callback,
    Bsize,
    Cap,
    Prepare,
}

impl FunctionWord {
    /// The word of this name; `None` where no word of functions has it.
    pub fn of(name: &[u8]) -> Option<FunctionWord>
        ensures { result ≡ function_word name.now }
    {
        match name {
            b"cut" => Some(FunctionWord::Cut),
            b"sync" => Some(FunctionWord::Sync),
            b"commit" => Some(FunctionWord::Commit),
            b"cache" => Some(FunctionWord::Cache),
            b"holds" => Some(FunctionWord::Holds),
            _ => None,
        }
    }
}

impl ParameterWord {
    /// The word of this name; `None` where no word of parameters has it.
    pub fn of(name: &[u8]) -> Option<ParameterWord>
        ensures { result ≡ parameter_word name.now }
    {
        match name {
            b"in" => Some(ParameterWord::In),
            b"out" => Some(ParameterWord::Out),
            b"callback" => Some(ParameterWord::Callback),
            b"bsize" => Some(ParameterWord::Bsize),
            b"cap" => Some(ParameterWord::Cap),
            b"prepare" => Some(ParameterWord::Prepare),
            _ => None,
        }
    }
}

/// Whether a name is the word that stands at a global.
pub fn is_guarded_by(name: &[u8]) -> bool
    ensures { result ≡ same_name name.now (codes "guarded_by") }
{
    name == b"guarded_by".as_slice()
}
