//! Addresses that are known before a run (C11 6.6, 9).

ghost use Rattle.std.specs.Prelude.{◌≡◌, IfSome};
ghost use Rattle.std.specs.Option.{option_map};
ghost use Rattle.c_syntax.specs.Stands.{Stands};
ghost use Rattle.c_syntax.specs.Syntax.{Expr};
ghost use Rattle.c_types_rules.specs.Initials.{address_known as address_by_rules, global_known as global_by_rules, known_by as known_by_rules, named_under_address as named_by_rules};
ghost use Rattle.c_types_program.specs.Declarations.{known_in};
ghost use Rattle.c_types_nodes.specs.Tables.{IsNode, node_at};
ghost use Rattle.c_types_expressions.specs.Walks.{IsExpr};
ghost use Rattle.c_types_initializers.specs.Pieces.{MayStand};

use c_lexer::Sign;
use c_syntax::{ExprId, ExprKind, Tree};
use c_types_environment::Environment;
use c_types_nodes::{Node, NodeId};
use c_types_program::Known;
use c_types_table::Ty;

// The address of a string, of a function or of a global array; `None` of any other node.
fn address_known(env: &Environment, node: NodeId) -> Option<Known>
    requires { IsNode env.now.table node }
    ensures { option_map known_in result ≡ address_by_rules (node_at env.now.table node) }
{
    match env.table().get(node) {
        Node::TextObject { from, .. } => Some(Known::AddressOfText(*from)),
        Node::GlobalObject { place, ty, .. } => match env.table().types().get(*ty) {
            Ty::Array(..) => Some(Known::AddressOfGlobal(*place)),
            _ => None,
        },
        Node::SourceFunction { from, number, .. } => Some(Known::AddressOfFunction {
            from: *from,
            number: *number,
        }),
        _ => None,
    }
}

/// The address of a global; `None` of any other node.
pub fn global_known(env: &Environment, node: NodeId) -> Option<Known>
    requires { IsNode env.now.table node }
    ensures { option_map known_in result ≡ global_by_rules (node_at env.now.table node) }
{
    match env.table().get(node) {
        Node::GlobalObject { place, .. } => Some(Known::AddressOfGlobal(*place)),
        _ => None,
    }
}

/// The address that an expression is which is a name or a string, where `node` is what it is; `None` of any other expression.
pub fn known_by(env: &Environment, tree: &Tree, id: ExprId, node: NodeId) -> Option<Known>
    requires id { IsExpr tree.now id }
    requires node { IsNode env.now.table node }
    ensures { (x : Expr) → Stands tree.now id x →
        option_map known_in result ≡ known_by_rules x (node_at env.now.table node) }
{
    match &tree.expr(id).kind {
        ExprKind::Name(_) | ExprKind::Text(_) => address_known(env, node),
        _ => None,
    }
}

/// The name after `&`; `None` of any other expression.
pub fn named_under_address(tree: &Tree, id: ExprId) -> Option<ExprId>
    requires { IsExpr tree.now id }
    ensures named { (x : Expr) → Stands tree.now id x → MayStand tree.now (named_by_rules x) result }
    ensures inside { IfSome result (IsExpr tree.now) }
{
    let ExprKind::Prefix(Sign::Ampersand, operand) = &tree.expr(id).kind else {
        return None;
    };
    match &tree.expr(*operand).kind {
        ExprKind::Name(_) => Some(*operand),
        _ => None,
    }
}
