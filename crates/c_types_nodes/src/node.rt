//! Typed nodes.

use crate::ids::{Arguments, NodeId};
use crate::number::Number;
use c_builtins::Builtin;
use c_types_table::TypeId;
use r2_num::{IntKind, Op};

/// In which order a pointer and an integer stand, and whether the integer is taken away (C11 6.5.6).
#[derive(Clone, Copy)]
pub enum Sum {
    PointerPlus,
    PlusPointer,
    PointerMinus,
}

/// One more or one less.
#[derive(Clone, Copy)]
pub enum Way {
    Up,
    Down,
}

/// What `++` and `--` give: the new value before an object, the old one after it (C11 6.5.2.4, 6.5.3.1).
#[derive(Clone, Copy)]
pub enum Given {
    New,
    Old,
}

/// What an expression is, with its parts by their numbers in a table.
///
/// The first six are objects (C11 6.3.2.1, 1), the next three functions, and all others values.
#[derive(Drop)]
pub enum Node {
    /// The global of this place, in the order of the source, where its name stands at this offset.
    GlobalObject {
        from: u32,
        place: u32,
        ty: TypeId,
    },
    /// The parameter or local of this place: first the parameters and then all locals of the function, in the order of
    /// the source.
    LocalObject(u32, TypeId),
    /// The string that stands at this offset, with its length without the ending zero.
    TextObject {
        from: u32,
        length: u32,
    },
    /// What a pointer points to.
    Pointed(NodeId, TypeId),
    /// A subscript (C11 6.5.2.1).
    Element {
        sum: Sum,
        pointer: NodeId,
        index: NodeId,
        ty: TypeId,
    },
    /// The member of this number, in the order of the struct's definition.
    MemberOf(NodeId, u32, TypeId),
    /// A function of the source, by its number, where its name stands at this offset.
    SourceFunction {
        from: u32,
        number: u32,
        ty: TypeId,
    },
    /// A builtin, where its name stands at this offset.
    BuiltinFunction {
        from: u32,
        builtin: Builtin,
        ty: TypeId,
    },
    /// The function that a pointer points to.
    Through(NodeId, TypeId),
    Constant(IntKind, Number),
    /// The address of a function of the source, which is named at this offset, with the function's type.
    FunctionAddress {
        from: u32,
        number: u32,
        ty: TypeId,
    },
    /// What is read from an object that is no array; of a struct nothing is read.
    ReadOf(NodeId),
    /// A pointer of this type to an object, or to an array's first element.
    AddressOf(NodeId, TypeId),
    Convert(TypeId, NodeId),
    Negate(IntKind, NodeId),
    Complement(IntKind, NodeId),
    /// An operator on two values of one kind; the right side of a shift has its own.
    Arithmetic(Op, IntKind, NodeId, NodeId),
    /// A pointer and an integer, which counts elements of this size in bytes.
    PointerSum {
        sum: Sum,
        pointer: NodeId,
        index: NodeId,
        size: u64,
    },
    /// How many elements of this size in bytes lie between two pointers.
    PointerDifference(NodeId, NodeId, u64),
    PointerComparison(Op, NodeId, NodeId),
    Not(NodeId),
    Both(NodeId, NodeId),
    Either(NodeId, NodeId),
    /// The condition, the value where it isn't 0, and the value where it is.
    Choice(NodeId, NodeId, NodeId),
    /// The comma operator.
    Sequence(NodeId, NodeId),
    Assigned(NodeId, NodeId),
    /// The value of the object, converted to the kind, and the other value; the result is converted back.
    Changed(NodeId, Op, IntKind, NodeId),
    /// A pointer object and an integer, which counts elements of this size in bytes.
    Moved {
        object: NodeId,
        way: Way,
        index: NodeId,
        size: u64,
    },
    /// An integer goes up or down by 1, a pointer by the size in bytes of what it points to.
    Stepped {
        object: NodeId,
        way: Way,
        given: Given,
        size: u64,
    },
    CallOf {
        callee: NodeId,
        arguments: Arguments,
        result: TypeId,
    },
}
