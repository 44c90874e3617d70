// Actions that make annotations and values.

ghost use Rattle.c_parser_tree.specs.IsMade.{Makes};
ghost use Rattle.c_parser_tree.specs.Made.{made_annot, made_item, made_value};

use crate::builder::{BuildError, Builder, empty};
use c_parser_moves::Action;
use c_syntax::{Annot, Atom, Item, Value};

impl Builder {
    /// Makes an annotation, or what the next kinds of action make.
    #[tactic(auto, unfolding(crate::specs::Made::made_annot))]
    pub fn make_annot(&mut self, action: Action) -> Result<(), BuildError>
        ensures { Makes result self.old self.new (made_annot action) }
    {
        match action {
            Action::NoAnnots => self.put_annots(empty(self.alloc)),
            Action::AnnotName(from, name) => self.put_annot(Annot {
                from,
                name,
                items: empty(self.alloc),
            }),
            Action::AddAnnot => {
                let last = self.pop_annot()?;
                self.add_annot(last)
            }
            Action::AddItem => {
                let last = self.pop_item()?;
                self.add_item(last)
            }
            other => self.make_item(other),
        }
    }

    /// Makes a factor or an item of an annotation, or what the next kinds of action make.
    #[tactic(auto, unfolding(crate::specs::Made::made_item))]
    pub fn make_item(&mut self, action: Action) -> Result<(), BuildError>
        ensures { Makes result self.old self.new (made_item action) }
    {
        match action {
            Action::NameAtom(name) => self.put_atom(Atom::Name(name)),
            Action::NumberAtom(value) => self.put_atom(Atom::Number(value)),
            Action::ReturnAtom => self.put_atom(Atom::Return),
            Action::SizeofAtom => {
                let type_name = self.pop_decl()?;
                self.put_atom(Atom::Sizeof(type_name))
            }
            Action::OneFactor(from) => {
                let a = self.pop_atom()?;
                self.put_item(Item { from, a, b: None })
            }
            Action::TwoFactors(from) => {
                let b = self.pop_atom()?;
                let a = self.pop_atom()?;
                self.put_item(Item {
                    from,
                    a,
                    b: Some(b),
                })
            }
            other => self.make_value(other),
        }
    }

    /// Makes a value that is no list in braces, or a list of values, or what the next kinds of action make.
    #[tactic(auto, unfolding(crate::specs::Made::made_value))]
    pub fn make_value(&mut self, action: Action) -> Result<(), BuildError>
        ensures { Makes result self.old self.new (made_value action) }
    {
        match action {
            Action::Plain => {
                let expr = self.pop_expr()?;
                self.put_value(Value::Plain(expr))
            }
            Action::NoValues => self.put_values(empty(self.alloc)),
            Action::AddValue => {
                let last = self.pop_value()?;
                self.add_value(last)
            }
            other => self.make_entry(other),
        }
    }
}
