//! A program that several hold.
ghost use Rattle.std.specs.Prelude.{◌≡◌, IfOk, option_map};

use std::alloc::{AllocError, Global};
use std::marker::Model;
use std::sync::Arc;
use tap_filter::Program;

/// A filter's program, which the tasks of all taps hold together. A contract sees its instructions.
#[derive(Drop)]
pub struct SharedProgram {
    program: Arc<Program>,
}

impl Model for SharedProgram {
    ghost use Rattle.std.specs.Prelude.{List};
    ghost use Rattle.std.specs.Arc.{arc_value};
    ghost use Rattle.tap_filter.specs.declared.instr.Instr.{Instr};

    ghost Value = { List Instr };

    ghost view = { λ s. arc_value s.program };
}

impl SharedProgram {
    pub fn new(alloc: Global, program: Program) -> Result<SharedProgram, AllocError>
        ensures same { IfOk result (λ shared. shared ≡ program) }
    {
        match Arc::new(alloc, program) {
            Ok(program) => Ok(SharedProgram { program }),
            Err(_) => Err(AllocError),
        }
    }

    pub fn program(&self) -> &Program
        ensures same { result.now ≡ self.now }
    {
        &self.program
    }

    /// One more holder of the same program.
    pub fn share(&self) -> Result<SharedProgram, AllocError>
        ensures same { IfOk result (λ shared. shared ≡ self.now) }
    {
        let program = Arc::try_clone(&self.program)?;
        Ok(SharedProgram { program })
    }
}

/// The program, where there is one.
pub fn program_in(filter: &Option<SharedProgram>) -> Option<&Program>
    ensures same { option_map (λ p. p.now) result ≡ filter.now }
{
    match filter {
        Some(shared) => Some(shared.program()),
        None => None,
    }
}

/// The same for one more holder.
pub fn share_in(filter: &Option<SharedProgram>) -> Result<Option<SharedProgram>, AllocError>
    ensures same { IfOk result (λ shared. shared ≡ filter.now) }
{
    match filter {
        Some(shared) => Ok(Some(shared.share()?)),
        None => Ok(None),
    }
}
