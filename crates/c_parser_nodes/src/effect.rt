// What an action does to the pieces of a tree on the stack.

ghost use Rattle.std.specs.Prelude.{◌≡◌};
ghost use Rattle.c_parser_nodes.specs.Effects.{effect};

use c_parser_moves::Action;

/// What becomes of the pieces at the top of the stack.
#[derive(Clone, Copy)]
pub enum Effect {
    /// So many become one, with as many nodes of its own.
    Join(u8, usize),
    /// The piece at the top is part of another, alone.
    Keep,
    /// An annotation without items comes, which begins there.
    Annotation(u32),
    /// The piece at the top joins the list below it.
    Extend,
    /// So many and the type below them become a declaration, and the type stays.
    Declare(u8),
    /// The declaration joins the list below its type, and the type stays.
    AddName,
    /// The type is done with.
    EndSpecs,
    /// The type below a declaration is done with.
    DropSpecs,
    /// A struct's members, below them its tag, join the list below these.
    AddStruct,
}

/// What the action does.
pub fn effect_of(action: &Action) -> Effect
    ensures { result ≡ effect action.now }
{
    match action {
        Action::Name(_, _)
        | Action::Number { .. }
        | Action::Char(_, _)
        | Action::Text(_, _)
        | Action::Named(_, _)
        | Action::Nameless(_)
        | Action::Break(_)
        | Action::Continue(_) => Effect::Join(0, 1),
        Action::Prefix(_, _)
        | Action::Postfix(_, _)
        | Action::SizeofExpr(_)
        | Action::SizeofType(_)
        | Action::Member(_, _)
        | Action::Arrow(_, _)
        | Action::Pointer(_)
        | Action::Braces(_)
        | Action::Block(_)
        | Action::Expression(_)
        | Action::Return(_) => Effect::Join(1, 1),
        Action::Binary(_, _)
        | Action::Assign(_, _)
        | Action::Cast(_)
        | Action::Index(_)
        | Action::Call(_)
        | Action::Array(_)
        | Action::Params(_)
        | Action::If(_)
        | Action::While(_)
        | Action::Do(_) => Effect::Join(2, 1),
        Action::Cond(_) | Action::IfElse(_) => Effect::Join(3, 1),
        Action::For(_) => Effect::Join(4, 1),
        Action::NoExprs
        | Action::NoExpr
        | Action::NoDecls
        | Action::NoAnnots
        | Action::NameAtom(_)
        | Action::NumberAtom(_)
        | Action::ReturnAtom
        | Action::NoValues
        | Action::NoEntries
        | Action::NoFirst
        | Action::Tag(_, _) => Effect::Join(0, 0),
        Action::OneExpr
        | Action::Specs(_)
        | Action::SizeofAtom
        | Action::OneFactor(_)
        | Action::Plain
        | Action::LocalFirst
        | Action::ExprFirst => Effect::Keep,
        Action::TwoFactors(_) => Effect::Join(2, 0),
        Action::AnnotName(from, _) => Effect::Annotation(*from),
        Action::AddExpr
        | Action::AddAnnot
        | Action::AddItem
        | Action::AddValue
        | Action::AddLocal
        | Action::AddStmt => Effect::Extend,
        Action::Declare => Effect::Declare(1),
        Action::DeclareValue | Action::DeclareBody => Effect::Declare(2),
        Action::AddName => Effect::AddName,
        Action::EndSpecs => Effect::EndSpecs,
        Action::DropSpecs => Effect::DropSpecs,
        Action::Struct => Effect::AddStruct,
    }
}
