//! The keys that a parameter's value is.

ghost use Rattle.std.specs.Prelude.{◌≡◌};
ghost use Rattle.std.specs.List.{list_any};
ghost use Rattle.stub_operations.specs.Growing.{IsAdded};
ghost use Rattle.stub_operations.specs.Operations.{is_among, is_key, keys_at_call, keys_at_return};
ghost use Rattle.annot_reader_words.specs.declared.notes.Param.{Param as Parameter};
ghost use Rattle.call_operations.specs.Said.{says};

use crate::list::OperationList;
use crate::said::Said;
use annot_reader_words::Param;
use run_events::Class;
use stub_core::Size;
use stub_operations::StubOp;

fn is_among(place: u8, places: &[u8]) -> bool
    ensures { result ≡ is_among place places.now }
{
    places.contains(&place)
}

// Whether a region is prepared or released under the value of the parameter.
fn is_key(place: u8, region: Option<(u8, Size)>) -> bool
    ensures { result ≡ is_key place region }
{
    match region {
        Some((key, _)) => key == place,
        None => false,
    }
}

fn is_prepared(place: u8, params: &[Param]) -> bool
    ensures { result ≡ list_any (λ (x : Parameter). is_key place x.prepares) params.now }
{
    params.iter().any(|param| is_key(place, param.prepares))
}

/// Adds the keys at the Call of a parameter's value.
pub(crate) fn put_keys_at_call(list: &mut OperationList, said: &Said<'_>, place: u8)
    ensures { IsAdded list.old (keys_at_call (says said.now) place) list.new }
{
    list.put_if(
        is_among(place, said.sync),
        StubOp::KeyAtCall {
            class: Class::User,
            param: Some(place),
        },
    );
    list.put_if(
        is_prepared(place, said.params),
        StubOp::KeyAtCall {
            class: Class::Async,
            param: Some(place),
        },
    );
}

/// Adds the keys at the Ret of a parameter's value.
pub(crate) fn put_keys_at_return(list: &mut OperationList, said: &Said<'_>, place: u8)
    ensures { IsAdded list.old (keys_at_return (says said.now) place) list.new }
{
    list.put_if(
        is_among(place, said.sync),
        StubOp::KeyAtRet {
            class: Class::User,
            param: Some(place),
        },
    );
    list.put_if(
        is_key(place, said.commit),
        StubOp::KeyAtRet {
            class: Class::Async,
            param: Some(place),
        },
    );
}
