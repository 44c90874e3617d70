//! The declarations of a source, one after another.

ghost use Rattle.std.specs.Prelude.{◌≡◌, OnOk};
ghost use Rattle.std.specs.List.{All};
ghost use Rattle.c_scopes.specs.Scopes.{innermost};
ghost use Rattle.c_syntax.specs.Stands.{StandDecls};
ghost use Rattle.c_syntax.specs.Syntax.{Decls};
ghost use Rattle.c_types_rules.specs.Sources.{Program};
ghost use Rattle.annot_reader_rules.specs.Cuts.{all_noted};
ghost use Rattle.annot_reader_words.specs.Answers.{Tells};
ghost use Rattle.annot_reader_functions.specs.Parameters.{AreDecls};
ghost use Rattle.annot_reader_functions.specs.Rules.{Stays};
ghost use Rattle.annot_reader.specs.Headings.{AreHeadings, IsHeading};
ghost use Rattle.annot_reader.specs.Reading.{IsReading, nothing_read};
ghost use Rattle.annot_reader_functions.specs.Seen.{declared_by};

use crate::reading::Reading;
use crate::source::Source;
use annot_reader_words::AnnotationError;
use c_syntax::DeclId;
use c_types_environment::Environment;
use std::alloc::Global;

/// What declarations of a source say. `Rule` names the first rule of annotations that they break, with the offset of its node.
pub(crate) fn read(
    alloc: Global,
    env: &mut Environment,
    source: &Source,
    ids: &[DeclId],
) -> Result<Reading, AnnotationError>
    requires ids { AreDecls source.now.tree.now ids.now }
    requires numbers { All (IsHeading (declared_by env.old)) source.now.functions.now }
    ensures agrees { (ds : Decls) (p : Program) → StandDecls source.now.tree.now ids.now ds →
        AreHeadings (declared_by env.old) source.now.functions.now p.functions →
        innermost (declared_by env.old).env.scopes ≡ p.names →
        Tells (IsReading source.now.cut.now) (all_noted (declared_by env.old).env p ds nothing_read) result }
    ensures kept { OnOk result (Stays (declared_by env.old) (declared_by env.new)) }
{
    let mut reading = Reading::new(alloc);
    for id in ids {
        reading.note(alloc, env, source, *id)?;
    }
    Ok(reading)
}
