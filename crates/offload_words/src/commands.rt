//! The command set, as clap is told of it.

ghost use Rattle.std.specs.Prelude.{◌≡◌, IfOk, codes, false};
ghost use Rattle.clap.specs.Words.{app_of, new_app, with_subcommand};
ghost use Rattle.offload_words.specs.Commands.{has_globals_of, needs_subcommand, offload_app, reading_app};

use crate::check::check_subcommand;
use crate::make::make_subcommand;
use crate::merge::merge_subcommand;
use crate::segment::segment_subcommand;
use std::alloc::{AllocError, Global};

/// The program's own level: one subcommand is required.
fn program<'a>(alloc: Global) -> clap::Command<'a>
    ensures app { app_of result ≡ needs_subcommand (new_app (codes "offload")) }
{
    clap::Command::new(alloc, "offload").subcommand_required(true)
}

/// The program with one more subcommand.
fn with_command<'a>(
    app: clap::Command<'a>,
    subcommand: clap::Command<'a>,
) -> Result<clap::Command<'a>, AllocError>
    requires local { has_globals_of subcommand ≡ false }
    ensures app { IfOk result (λ c. app_of c ≡ with_subcommand (app_of app.entry) (app_of subcommand.entry).top) }
{
    app.subcommand(subcommand)
}

/// The program with the commands that read a capture.
fn reading_commands<'a>(alloc: Global) -> Result<clap::Command<'a>, AllocError>
    ensures app { IfOk result (λ c. app_of c ≡ reading_app) }
{
    let merge = with_command(program(alloc), merge_subcommand(alloc)?)?;
    let segment = with_command(merge, segment_subcommand(alloc)?)?;
    with_command(segment, check_subcommand(alloc)?)
}

/// The whole command set.
pub(crate) fn offload_commands<'a>(alloc: Global) -> Result<clap::Command<'a>, AllocError>
    ensures app { IfOk result (λ c. app_of c ≡ offload_app) }
{
    with_command(reading_commands(alloc)?, make_subcommand(alloc)?)
}
