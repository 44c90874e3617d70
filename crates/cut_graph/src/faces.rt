//! The functions of the interface, as flags.

ghost use Rattle.std.specs.Prelude.{◌≡◌, ◌≤◌, ◌^◌, is_some, IfOk};
ghost use Rattle.annot_reader.specs.Interfaces.{annots_at};
ghost use Rattle.cut_graph.specs.Faces.{AreFaces};

use annot_reader::Iface;
use std::alloc::{AllocError, Global};

fn is_face(iface: &Iface, number: u16) -> bool
    ensures { result ≡ is_some (annots_at iface.now number) }
{
    iface.annots(number).is_some()
}

/// Of so many functions by number, which are in the interface.
#[tactic(auto, using(crate::proofs::Flagged::one_more, crate::proofs::Flagged::none_yet))]
pub(crate) fn faces_of(alloc: Global, iface: &Iface, count: u32) -> Result<Vec<bool>, AllocError>
    requires { count ≤ 2 ^ 16 }
    ensures { IfOk result (λ v. AreFaces iface.now count v.items) }
{
    let mut faces = Vec::new(alloc);
    for number in 0..count {
        let is_one = is_face(iface, number as u16);
        faces.push(is_one)?;
    }
    Ok(faces)
}
