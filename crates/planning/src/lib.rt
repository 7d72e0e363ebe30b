// What the program that plans does. A crate of its own, on which alone that program stands: its `main` has nothing
// else to call, and no other command within reach.
#![tactic(auto)]

ghost use Rattle.std.specs.Prelude.{List, IfOk};
ghost use Rattle.program.specs.Served.{Answered};
ghost use Rattle.reading.specs.Lines.{Line};

use program::serve::serve;
use reading::known::Known;
use script::tally::Tally;
use std::io::Write;
use std::rt::{Env, Files};

// Answers a script that plans: it knows the commands of a plan, and no other.
pub fn plan<R: Env + Files + Input + AllocGlobal, W: Write>(
    rt: &R,
    out: &mut W,
) -> anyhow::Result<Tally>
    ensures { IfOk result (λ tally. (ls : List Line) × Answered Known.Planning ls (W.contents out.old) (W.contents out.new) tally) }
{
    serve(rt, Known::Planning, out)
}
