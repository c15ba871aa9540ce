// The arguments of the program.
ghost use Rattle.std.specs.Prelude.{◌≡◌, ◌⊎◌, IfOk, IfErr, drop, map, string_bytes};
ghost use Rattle.std.specs.Vec.Iter.{into_iter_items};

use crate::status::Status;
use kr_base::Text;
use std::alloc::{AllocGlobal, Global};
use std::env::{self, Args, Env};
use std::io::ErrorKind;

/// The arguments after the first one, in order, each as it is; an empty one is an empty word.
///
/// Refused with `Usage` if one of them contains a zero byte, and with `Memory` if no memory was left.
fn after_the_first(alloc: Global, mut all: Args) -> Result<Vec<Text>, Status>
    ensures words { IfOk result (λ words. words.items
        ≡ map string_bytes (drop 1 (into_iter_items all))) }
    ensures refused { IfErr result (λ status.
        (status ≡ Status.Usage) ⊎ (status ≡ Status.Memory)) }
{
    let mut words = Vec::new(alloc);
    let _name = all.next();
    while let Some(word) = all.next() {
        let Some(text) = Text::new(word) else {
            return Err(Status::Usage);
        };
        if words.push(text).is_err() {
            return Err(Status::Memory);
        }
    }
    Ok(words)
}

/// The arguments after the program's name, in order, each as it is (`after_the_first`), as the system gives them:
/// std has no clause that says what they are.
///
/// Refused with `Usage` if one of them isn't UTF-8 or contains a zero byte, and with `Memory` if no
/// memory was left.
pub fn words_of<R: AllocGlobal + Env>(rt: &R) -> Result<Vec<Text>, Status>
    ensures refused { IfErr result (λ status.
        (status ≡ Status.Usage) ⊎ (status ≡ Status.Memory)) }
{
    match env::args(rt) {
        Ok(all) => after_the_first(rt.alloc(), all),
        Err(error) => Err(if error.kind() == ErrorKind::OutOfMemory {
            Status::Memory
        } else {
            Status::Usage
        }),
    }
}
