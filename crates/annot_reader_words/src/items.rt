//! Items of annotations.

ghost use Rattle.std.specs.Prelude.{◌≡◌};
ghost use Rattle.std.specs.Option.{option_copied};
ghost use Rattle.c_syntax.specs.Nodes.{Nodes};
ghost use Rattle.c_syntax.specs.Stands.{StandItems};
ghost use Rattle.c_syntax.specs.Syntax.{Items};
ghost use Rattle.annot_reader_rules.specs.Regions.{one_item as one_item_of};
ghost use Rattle.annot_reader_words.specs.Items.{MaybeStands};

use c_syntax::Item;

/// The item of an annotation that has one; `None` of any other number of items.
pub fn one_item(items: &[Item]) -> Option<&Item>
    ensures { (N : Nodes) (is : Items) → StandItems N items.now is →
        MaybeStands N (option_copied result) (one_item_of is) }
{
    match items {
        [item] => Some(item),
        _ => None,
    }
}
