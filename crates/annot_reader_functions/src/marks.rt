//! Which annotations stand at a parameter.

ghost use Rattle.std.specs.Prelude.{◌≡◌};
ghost use Rattle.c_syntax.specs.Nodes.{Nodes};
ghost use Rattle.c_syntax.specs.Stands.{StandAnnots, StandItems, StandsAnnot};
ghost use Rattle.c_syntax.specs.Syntax.{Annot as Annotated, Annots, Items};
ghost use Rattle.annot_reader_rules.specs.Regions.{Marked, all_marked, marked, unmarked};
ghost use Rattle.annot_reader_words.specs.Answers.{Tells};
ghost use Rattle.annot_reader_functions.specs.Marking.{AreMarks, IsMarked, bsize_marked, callback_marked, cap_marked, in_marked, out_marked, prepare_marked};

use crate::once::{alone, with_one};
use annot_reader_words::{AnnotationError, ParameterWord};
use c_syntax::{Annot, Item};

/// Which annotations stand at a parameter, and their items.
#[derive(Clone, Copy)]
pub struct Marks<'a> {
    pub has_in: bool,
    pub has_out: bool,
    pub callback: bool,
    pub bsize: Option<&'a Item>,
    pub cap: Option<&'a Item>,
    pub prepare: Option<&'a Item>,
}

fn with_in<'a>(annot: &'a Annot, marks: Marks<'a>) -> Result<Marks<'a>, AnnotationError>
    ensures { (N : Nodes) (is : Items) (m : Marked) → StandItems N annot.now.items is →
        IsMarked N marks.entry m → Tells (AreMarks N) (in_marked annot.now.from is m) result }
{
    alone(annot, marks.has_in)?;
    Ok(Marks {
        has_in: true,
        ..marks
    })
}

fn with_out<'a>(annot: &'a Annot, marks: Marks<'a>) -> Result<Marks<'a>, AnnotationError>
    ensures { (N : Nodes) (is : Items) (m : Marked) → StandItems N annot.now.items is →
        IsMarked N marks.entry m → Tells (AreMarks N) (out_marked annot.now.from is m) result }
{
    alone(annot, marks.has_out)?;
    Ok(Marks {
        has_out: true,
        ..marks
    })
}

fn with_callback<'a>(annot: &'a Annot, marks: Marks<'a>) -> Result<Marks<'a>, AnnotationError>
    ensures { (N : Nodes) (is : Items) (m : Marked) → StandItems N annot.now.items is →
        IsMarked N marks.entry m → Tells (AreMarks N) (callback_marked annot.now.from is m) result }
{
    alone(annot, marks.callback)?;
    Ok(Marks {
        callback: true,
        ..marks
    })
}

fn with_bsize<'a>(annot: &'a Annot, marks: Marks<'a>) -> Result<Marks<'a>, AnnotationError>
    ensures { (N : Nodes) (is : Items) (m : Marked) → StandItems N annot.now.items is →
        IsMarked N marks.entry m → Tells (AreMarks N) (bsize_marked annot.now.from is m) result }
{
    let item = with_one(annot, marks.bsize)?;
    Ok(Marks {
        bsize: Some(item),
        ..marks
    })
}

fn with_cap<'a>(annot: &'a Annot, marks: Marks<'a>) -> Result<Marks<'a>, AnnotationError>
    ensures { (N : Nodes) (is : Items) (m : Marked) → StandItems N annot.now.items is →
        IsMarked N marks.entry m → Tells (AreMarks N) (cap_marked annot.now.from is m) result }
{
    let item = with_one(annot, marks.cap)?;
    Ok(Marks {
        cap: Some(item),
        ..marks
    })
}

fn with_prepare<'a>(annot: &'a Annot, marks: Marks<'a>) -> Result<Marks<'a>, AnnotationError>
    ensures { (N : Nodes) (is : Items) (m : Marked) → StandItems N annot.now.items is →
        IsMarked N marks.entry m → Tells (AreMarks N) (prepare_marked annot.now.from is m) result }
{
    let item = with_one(annot, marks.prepare)?;
    Ok(Marks {
        prepare: Some(item),
        ..marks
    })
}

// One annotation more.
#[tactic(auto, using(crate::proofs::Marking::marked_is))]
fn mark<'a>(annot: &'a Annot, marks: Marks<'a>) -> Result<Marks<'a>, AnnotationError>
    ensures { (N : Nodes) (x : Annotated) (m : Marked) → StandsAnnot N annot.now x →
        IsMarked N marks.entry m → Tells (AreMarks N) (marked x m) result }
{
    match ParameterWord::of(annot.name.as_slice()) {
        Some(ParameterWord::In) => with_in(annot, marks),
        Some(ParameterWord::Out) => with_out(annot, marks),
        Some(ParameterWord::Callback) => with_callback(annot, marks),
        Some(ParameterWord::Bsize) => with_bsize(annot, marks),
        Some(ParameterWord::Cap) => with_cap(annot, marks),
        Some(ParameterWord::Prepare) => with_prepare(annot, marks),
        None => Err(AnnotationError::Rule(annot.from, 1)),
    }
}

/// Which annotations stand at a parameter. `Rule` names the first that has no place there, or stands there again.
pub fn marks_of(annots: &[Annot]) -> Result<Marks<'_>, AnnotationError>
    ensures { (N : Nodes) (an : Annots) → StandAnnots N annots.now an →
        Tells (AreMarks N) (all_marked an unmarked) result }
{
    let mut marks = Marks {
        has_in: false,
        has_out: false,
        callback: false,
        bsize: None,
        cap: None,
        prepare: None,
    };
    for annot in annots {
        marks = mark(annot, marks)?;
    }
    Ok(marks)
}
