// The arguments that the system hands over.
ghost use Rattle.std.specs.Prelude.{◌≡◌, [], IfOk, OnErr, drop};
ghost use Rattle.std.specs.Vec.Iter.{into_iter_items};

use std::alloc::{AllocError, Global};
use std::rt::Env;
use std::{env, io};

/// The arguments after the first, which is the program's name.
fn words_after_name(alloc: Global, args: env::Args) -> Result<Vec<String>, AllocError>
    ensures { IfOk result (λ words. words.items ≡ drop 1 (into_iter_items args)) }
{
    args.skip(1).collect(alloc)
}

/// The arguments after the program's name, of what the system answered. Where one is no text there
/// are none, which is no command.
fn words_of(alloc: Global, answer: io::Result<env::Args>) -> io::Result<Vec<String>>
    ensures given { IfOk answer (λ args. IfOk result
        (λ words. words.items ≡ drop 1 (into_iter_items args))) }
    ensures none { OnErr answer (IfOk result (λ words. words.items ≡ [])) }
{
    match answer {
        Ok(args) => Ok(words_after_name(alloc, args)?),
        Err(error) if error.kind() == io::ErrorKind::OutOfMemory => Err(error),
        Err(_) => Ok(Vec::new(alloc)),
    }
}

/// The arguments after the program's name.
pub fn words(rt: &(impl Env + AllocGlobal), alloc: Global) -> io::Result<Vec<String>> {
    words_of(alloc, env::args(rt))
}
