//! Code of bodies.

ghost use Rattle.std.specs.Prelude.{◌≡◌, IfOk};
ghost use Rattle.c_types_program.specs.Declarations.{body_in};
ghost use Rattle.c_types_program.specs.Statements.{IsStatement};
ghost use Rattle.c_lower_placement.specs.Code.{body_code};
ghost use Rattle.c_lower_bodies.specs.Making.{making};

use crate::backward::Backward;
use crate::emitter::Emitter;
use c_types_program::Body;
use std::alloc::{AllocError, Global};

impl Emitter<'_, '_, '_> {
    /// The code of a body, after whose statements the result 0 is given. `AllocError` only where there is no memory.
    pub fn body(&self, alloc: Global, body: &Body) -> Result<Backward, AllocError>
        requires { IsStatement self.now.declared.table body.now.statements }
        ensures { IfOk result (λ c. c ≡ body_code (body_in self.now.declared.table body.now)
            (making self.now)) }
    {
        let mut code = Backward::new(alloc);
        self.give(&mut code, None)?;
        let end = code.len();
        self.statement(&mut code, &body.statements, end, end)?;
        Ok(code)
    }
}
