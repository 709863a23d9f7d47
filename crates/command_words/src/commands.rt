//! The commands of the program, as `clap` has them.
ghost use Rattle.std.specs.Prelude.{◌≡◌, IfOk, codes, false};
ghost use Rattle.clap.specs.Words.{app_of, rule_of};
ghost use Rattle.command_words.specs.Lines.{options, replay, bench, conf_rule, script_rule, number_rule, flag_rule};

use clap::{Arg, ArgAction, Command};
use std::alloc::{AllocError, Global};

/// `[-D] [-t | -p] -f CONF`, in any order.
pub fn options<'a>(alloc: Global) -> Result<Command<'a>, AllocError>
    ensures { IfOk result (λ c. app_of c ≡ options) }
{
    let test = Arg::new(alloc, "test")
        .short('t')
        .action(ArgAction::SetTrue);
    let print = Arg::new(alloc, "print")
        .short('p')
        .action(ArgAction::SetTrue);
    let foreground = Arg::new(alloc, "foreground")
        .short('D')
        .action(ArgAction::SetTrue);
    let made = Command::new(alloc, "lighttpd")
        .no_binary_name(true)
        .arg(conf(alloc))?
        .arg(test)?
        .arg(print)?
        .arg(foreground)?;
    Ok(made)
}

/// `-f CONF SCRIPT`, in any order: what stands behind `replay`.
pub fn replay<'a>(alloc: Global) -> Result<Command<'a>, AllocError>
    ensures { IfOk result (λ c. app_of c ≡ replay) }
{
    let script = Arg::new(alloc, "script")
        .required(true)
        .action(ArgAction::Set);
    let made = Command::new(alloc, "replay")
        .no_binary_name(true)
        .arg(conf(alloc))?
        .arg(script)?;
    Ok(made)
}

/// `NUMBER`: what stands behind `bench`.
pub fn bench<'a>(alloc: Global) -> Result<Command<'a>, AllocError>
    ensures { IfOk result (λ c. app_of c ≡ bench) }
{
    let number = Arg::new(alloc, "number")
        .required(true)
        .action(ArgAction::Set);
    let made = Command::new(alloc, "bench")
        .no_binary_name(true)
        .arg(number)?;
    Ok(made)
}

// `-f CONF`.
fn conf<'a>(alloc: Global) -> Arg<'a>
    ensures rule { rule_of result ≡ conf_rule }
    ensures local { result.global ≡ false }
{
    Arg::new(alloc, "conf")
        .short('f')
        .required(true)
        .action(ArgAction::Set)
}
