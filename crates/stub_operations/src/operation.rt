//! What is done at the calls of a function of the interface.

use run_events::Class;
use stub_core::Size;

/// One thing that is done at a Call of a function, while the call is open, or at its Ret. Parameters go by place, from 0; sizes are
/// in bytes.
#[derive(Clone, Copy)]
pub enum StubOp {
    /// System code reads so many bytes of what the parameter points to.
    ReadIn { param: u8, size: Size },
    /// System code writes what the parameter points to before the Ret: the capacity, and how much of it is used.
    HoldOut { param: u8, cap: Size, used: Size },
    /// System code writes what the parameter points to until a commit under the value of `key` releases it.
    Prepare { param: u8, key: u8, cap: Size },
    /// The parameter is a function that may be called back from then on.
    Register { param: u8 },
    /// The Ret releases the region that was prepared under the value of `key`: how much of it is used.
    Commit { key: u8, used: Size },
    /// The Call has the key of this class and of the parameter's value, of 0 where it is of no parameter.
    KeyAtCall { class: Class, param: Option<u8> },
    /// The Ret has that key.
    KeyAtRet { class: Class, param: Option<u8> },
    /// A Ret that equals the thread's last one of the function is written as such.
    CacheRet,
    /// The call goes on to what is below: a replay has nothing there.
    Pass,
}
