ghost use Rattle.std.specs.Prelude.{◌≡◌, ◌∷◌, [], List, IfOk, true, false};
ghost use Rattle.clap.specs.Words.{app_of, with_rule, with_subcommand};
ghost use Rattle.clap.specs.declared.builder.command.Command.TheViews.{out-Command as fields_of};
ghost use Rattle.storm_words.specs.steps.Parser.{app_with, positional, storm_app, top_app, topology, input, workers};

use clap::{Arg, Command};
use std::alloc::{AllocError, Global};

/// Seven subcommands, each with positional texts.
pub fn storm_parser<'a>(alloc: Global) -> Result<Command<'a>, AllocError>
    ensures app { IfOk result (λ made. app_of made ≡ storm_app) }
    ensures local { IfOk result (λ made. (fields_of made).has_globals ≡ false) }
{
    let check = with_text(alloc, Command::new(alloc, "check"), "topology")?;
    let plain = over_files(alloc, "plain")?;
    let replay = with_text(alloc, over_files(alloc, "replay")?, "schedule")?;
    let run = with_workers(alloc, over_files(alloc, "run")?)?;
    let load = with_text(alloc, Command::new(alloc, "load"), "records")?;
    let load = with_text(alloc, load, "seed")?;
    let track = with_workers(alloc, over_files(alloc, "track")?)?;
    let fold = with_workers(alloc, over_files(alloc, "fold")?)?;
    let storm = with_command(top(alloc), check)?;
    let storm = with_command(storm, plain)?;
    let storm = with_command(storm, replay)?;
    let storm = with_command(storm, run)?;
    let storm = with_command(storm, load)?;
    let storm = with_command(storm, track)?;
    with_command(storm, fold)
}

fn top<'a>(alloc: Global) -> Command<'a>
    ensures app { app_of result ≡ top_app }
    ensures local { (fields_of result).has_globals ≡ false }
{
    Command::new(alloc, "storm")
        .no_binary_name(true)
        .disable_help_flag(true)
        .disable_help_subcommand(true)
}

fn with_command<'a>(
    command: Command<'a>,
    subcommand: Command<'a>,
) -> Result<Command<'a>, AllocError>
    requires local { (fields_of command).has_globals ≡ false }
    requires local_too { (fields_of subcommand).has_globals ≡ false }
    ensures app { IfOk result (λ made. app_of made
        ≡ with_subcommand (app_of command.entry) (app_of subcommand.entry).top) }
    ensures local { IfOk result (λ made. (fields_of made).has_globals ≡ false) }
{
    Ok(command.subcommand(subcommand)?)
}

fn over_files<'a>(alloc: Global, name: &'a str) -> Result<Command<'a>, AllocError>
    ensures app { IfOk result (λ made. app_of made
        ≡ app_with name.entry.now (topology ∷ input ∷ [])) }
    ensures local { IfOk result (λ made. (fields_of made).has_globals ≡ false) }
{
    let command = with_text(alloc, Command::new(alloc, name), "topology")?;
    with_text(alloc, command, "input")
}

/// One more text, which has to be there.
fn with_text<'a>(
    alloc: Global,
    command: Command<'a>,
    id: &'a str,
) -> Result<Command<'a>, AllocError>
    requires { (fields_of command).has_globals ≡ false }
    ensures app { IfOk result (λ made. app_of made
        ≡ with_rule (app_of command.entry) (positional id.entry.now true)) }
    ensures local { IfOk result (λ made. (fields_of made).has_globals ≡ false) }
{
    Ok(command.arg(Arg::new(alloc, id).required(true))?)
}

/// A text more, which may be there.
fn with_workers<'a>(alloc: Global, command: Command<'a>) -> Result<Command<'a>, AllocError>
    requires { (fields_of command).has_globals ≡ false }
    ensures app { IfOk result (λ made. app_of made
        ≡ with_rule (app_of command.entry) (positional workers false)) }
    ensures local { IfOk result (λ made. (fields_of made).has_globals ≡ false) }
{
    Ok(command.arg(Arg::new(alloc, "workers"))?)
}
