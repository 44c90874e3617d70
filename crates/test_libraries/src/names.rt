//! Builtins by name and number (`c_builtins`), as they are listed in docs/LANGUAGE.md.

use c_builtins::{Builtin, is_reserved};

#[test]
fn each_builtin_has_its_name_and_its_number(rt: HostRuntime) {
    for (number, name) in [
        (0, "r2_malloc"),
        (1, "r2_free"),
        (2, "r2_spawn"),
        (3, "r2_join"),
        (4, "r2_lock"),
        (5, "r2_unlock"),
        (6, "r2_print"),
    ] {
        let by_name = Builtin::of_name(name.as_bytes()).map(|builtin| builtin.number());
        let by_number = Builtin::of_number(number).map(|builtin| builtin.name());
        assert_eq!(rt; (by_name, by_number), (Some(number), Some(name.as_bytes())));
    }
}
