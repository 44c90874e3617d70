//! The order of strings.

ghost use Rattle.std.specs.Prelude.{◌≡◌, ◌<◌, ◌^◌, ℕ, IfOk, OnOk, length, nat_eq};
ghost use Rattle.std.specs.HashMap.{get};
ghost use Rattle.c_types_program.specs.Programs.{texts_in};
ghost use Rattle.c_lower_layout.specs.Indexed.{AreOrders, or_there};

use c_types_program::TextLiteral;
use std::alloc::{AllocError, Global};
use std::collections::HashMap;

/// The number in 32 bits.
pub fn small(n: usize) -> u32
    requires { n < 2 ^ 32 }
    ensures { result ≡ n }
{
    n as u32
}

// Gives a string its order, if no other began there.
fn note(orders: &mut HashMap<u32, u32>, from: u32, order: u32) -> Result<(), AllocError>
    ensures { OnOk result ((q : ℕ) → get nat_eq orders.new q ≡
        or_there (get nat_eq orders.old q) (nat_eq q from) order) }
{
    if orders.contains_key(&from) {
        return Ok(());
    }
    orders.insert(from, order)?;
    Ok(())
}

/// The order of the first string at each offset where one is. `AllocError` only where there is no memory.
pub fn orders(alloc: Global, texts: &[TextLiteral]) -> Result<HashMap<u32, u32>, AllocError>
    requires { length texts.now < 2 ^ 32 }
    ensures { IfOk result (AreOrders (texts_in texts.now)) }
{
    let mut orders = HashMap::new(alloc);
    for (place, text) in texts.iter().enumerate() {
        note(&mut orders, text.from, small(place))?;
    }
    Ok(orders)
}
