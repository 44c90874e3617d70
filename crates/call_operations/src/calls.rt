//! The operations of a function.

ghost use Rattle.std.specs.Prelude.{◌≡◌, ◌≤◌, length, IfOk};
ghost use Rattle.stub_operations.specs.Growing.{IsAdded};
ghost use Rattle.stub_operations.specs.Operations.{by_place, committing, holding, operations, operations_below, preparing, reading};
ghost use Rattle.call_operations.specs.Said.{call_says, of_kind, parameter_says, says};

use crate::keys::{put_keys_at_call, put_keys_at_return};
use crate::kind::OperationKind;
use crate::list::OperationList;
use crate::said::Said;
use annot_reader_words::{Annots, Param};
use std::alloc::{AllocError, Global};
use stub_core::Size;
use stub_operations::StubOp;

fn put_read(list: &mut OperationList, place: u8, reads: Option<Size>)
    ensures { IsAdded list.old (reading place reads) list.new }
{
    if let Some(size) = reads {
        list.put(StubOp::ReadIn { param: place, size });
    }
}

fn put_hold(list: &mut OperationList, place: u8, writes: Option<(Size, Size)>)
    ensures { IsAdded list.old (holding place writes) list.new }
{
    if let Some((cap, used)) = writes {
        list.put(StubOp::HoldOut {
            param: place,
            cap,
            used,
        });
    }
}

fn put_prepare(list: &mut OperationList, place: u8, prepares: Option<(u8, Size)>)
    ensures { IsAdded list.old (preparing place prepares) list.new }
{
    if let Some((key, cap)) = prepares {
        list.put(StubOp::Prepare {
            param: place,
            key,
            cap,
        });
    }
}

fn put_commit(list: &mut OperationList, commit: Option<(u8, Size)>)
    ensures { IsAdded list.old (committing commit) list.new }
{
    if let Some((key, used)) = commit {
        list.put(StubOp::Commit { key, used });
    }
}

// Adds the operations of a kind of one parameter.
fn put_one(list: &mut OperationList, said: &Said<'_>, kind: OperationKind, place: u8, param: &Param)
    ensures { IsAdded list.old (of_kind kind (says said.now) place (parameter_says param.now)) list.new }
{
    match kind {
        OperationKind::Read => put_read(list, place, param.reads),
        OperationKind::Hold => put_hold(list, place, param.writes),
        OperationKind::Prepare => put_prepare(list, place, param.prepares),
        OperationKind::Register => list.put_if(param.callback, StubOp::Register { param: place }),
        OperationKind::KeyAtCall => put_keys_at_call(list, said, place),
        OperationKind::KeyAtReturn => put_keys_at_return(list, said, place),
    }
}

// Adds the operations of a kind, by parameter.
fn put_kind(list: &mut OperationList, said: &Said<'_>, kind: OperationKind)
    requires { length said.now.params.now ≤ 256 }
    ensures { IsAdded list.old (by_place (of_kind kind (says said.now)) 0 (says said.now).params) list.new }
{
    let params = said.params;
    for (place, param) in params.iter().enumerate() {
        put_one(list, said, kind, place as u8, param);
    }
}

/// What is done at the calls of a function with these annotations, in the order of operations.
pub fn operations(alloc: Global, annots: &Annots) -> Result<Vec<StubOp>, AllocError>
    ensures { IfOk result (λ v. v.items ≡ operations (call_says annots.now)) }
{
    let said = Said::of(annots);
    let mut list = OperationList::new(alloc);
    put_kind(&mut list, &said, OperationKind::Read);
    put_kind(&mut list, &said, OperationKind::Hold);
    put_kind(&mut list, &said, OperationKind::Prepare);
    put_kind(&mut list, &said, OperationKind::Register);
    put_commit(&mut list, said.commit);
    put_kind(&mut list, &said, OperationKind::KeyAtCall);
    put_kind(&mut list, &said, OperationKind::KeyAtReturn);
    list.put_if(said.cache, StubOp::CacheRet);
    list.finish()
}

/// What is done below the cut at an external with these annotations, in the order of operations.
pub fn operations_below(alloc: Global, annots: &Annots) -> Result<Vec<StubOp>, AllocError>
    ensures { IfOk result (λ v. v.items ≡ operations_below (call_says annots.now)) }
{
    let said = Said::of(annots);
    let mut list = OperationList::new(alloc);
    put_kind(&mut list, &said, OperationKind::Hold);
    put_kind(&mut list, &said, OperationKind::Prepare);
    put_commit(&mut list, said.commit);
    list.finish()
}
