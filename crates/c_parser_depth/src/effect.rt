// What an action does to the pieces of a tree on the stack.

ghost use Rattle.std.specs.Prelude.{◌≡◌};
ghost use Rattle.c_parser_depth.specs.Effects.{effect};

use c_parser_moves::Action;

/// What becomes of the pieces at the top of the stack.
#[derive(Clone, Copy)]
pub enum Effect {
    /// So many become one, below a node of its own at this offset if it has one.
    Join(u8, Option<u32>),
    /// So many and the type below them become a declaration, and the type stays.
    Declare(u8),
    /// The declaration joins the list below its type, and the type stays.
    AddName,
    /// The type is done with.
    EndSpecs,
    /// The type below a declaration is done with.
    DropSpecs,
}

/// What the action does.
pub fn effect_of(action: &Action) -> Effect
    ensures { result ≡ effect action.now }
{
    match action {
        Action::Name(from, _)
        | Action::Number { from, .. }
        | Action::Char(from, _)
        | Action::Text(from, _)
        | Action::Named(from, _)
        | Action::Nameless(from)
        | Action::Break(from)
        | Action::Continue(from) => Effect::Join(0, Some(*from)),
        Action::Prefix(from, _)
        | Action::Postfix(from, _)
        | Action::SizeofExpr(from)
        | Action::SizeofType(from)
        | Action::Member(from, _)
        | Action::Arrow(from, _)
        | Action::Pointer(from)
        | Action::Braces(from)
        | Action::Block(from)
        | Action::Expression(from)
        | Action::Return(from) => Effect::Join(1, Some(*from)),
        Action::Binary(from, _)
        | Action::Assign(from, _)
        | Action::Cast(from)
        | Action::Index(from)
        | Action::Call(from)
        | Action::Array(from)
        | Action::Params(from)
        | Action::If(from)
        | Action::While(from)
        | Action::Do(from) => Effect::Join(2, Some(*from)),
        Action::Cond(from) | Action::IfElse(from) => Effect::Join(3, Some(*from)),
        Action::For(from) => Effect::Join(4, Some(*from)),
        Action::NoExprs
        | Action::NoExpr
        | Action::NoDecls
        | Action::NoAnnots
        | Action::AnnotName(_, _)
        | Action::NameAtom(_)
        | Action::NumberAtom(_)
        | Action::ReturnAtom
        | Action::NoValues
        | Action::NoEntries
        | Action::NoFirst
        | Action::Tag(_, _) => Effect::Join(0, None),
        Action::OneExpr
        | Action::Specs(_)
        | Action::SizeofAtom
        | Action::OneFactor(_)
        | Action::Plain
        | Action::LocalFirst
        | Action::ExprFirst => Effect::Join(1, None),
        Action::AddExpr
        | Action::AddAnnot
        | Action::TwoFactors(_)
        | Action::AddItem
        | Action::AddValue
        | Action::AddLocal
        | Action::AddStmt => Effect::Join(2, None),
        Action::Struct => Effect::Join(3, None),
        Action::Declare => Effect::Declare(1),
        Action::DeclareValue | Action::DeclareBody => Effect::Declare(2),
        Action::AddName => Effect::AddName,
        Action::EndSpecs => Effect::EndSpecs,
        Action::DropSpecs => Effect::DropSpecs,
    }
}
