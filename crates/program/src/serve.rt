// A script answered line by line, from a file or from standard input.
ghost use Rattle.std.specs.Prelude.{◌≡◌, List, IfOk, OnOk, [], ◌∷◌, ◌++◌};
ghost use Rattle.std.specs.Io.KnownBytes.{Appends};
ghost use Rattle.reading.specs.Lines.{Line};
ghost use Rattle.script.specs.Texts.{tally_text};
ghost use Rattle.program.specs.Served.{Answered};

use anyhow::anyhow;
use arrayvec::ArrayString;
use reading::known::Known;
use script::runner::Runner;
use script::tally::Tally;
use std::alloc::Global;
use std::fmt::Write as _;
use std::fs::File;
use std::io::{BufRead, BufReader, Read, Write};
use std::rt::{Env, Files};
use std::{env, fmt};

// Answers the script of the file that the argument names, or of standard input, into `out`.
// Tells what it came to.
pub fn serve<R: Env + Files + Input + AllocGlobal, W: Write>(
    rt: &R,
    known: Known,
    out: &mut W,
) -> anyhow::Result<Tally>
    ensures { IfOk result (λ tally. (ls : List Line) × Answered known ls (W.contents out.old) (W.contents out.new) tally) }
{
    let mut args = env::args(rt)?;
    let _program = args.next();
    let Some(path) = args.next() else {
        return answer(
            rt.alloc(),
            known,
            BufReader::new(rt.alloc(), rt.reader())?,
            out,
        );
    };
    if args.next().is_some() {
        return Err(anyhow!("give one script, or none to read standard input"));
    }
    match File::open(rt, path.as_str()) {
        Ok(file) => answer(rt.alloc(), known, BufReader::new(rt.alloc(), file)?, out),
        Err(error) => Err(anyhow!(format!(in rt.alloc(); "cannot open {path}: {error}")?)),
    }
}

// What is answered goes out as soon as no more of the script is at hand.
fn answer<S: Read + Drop, W: Write>(
    heap: Global,
    known: Known,
    mut script: BufReader<S>,
    out: &mut W,
) -> anyhow::Result<Tally>
    ensures { IfOk result (λ tally. (ls : List Line) × Answered known ls (W.contents out.old) (W.contents out.new) tally) }
{
    let mut runner = Runner::new();
    let mut line = Vec::new(heap);
    let mut text = String::new(heap);
    // A range, since a reader may have no end, and every loop is proved to end.
    for _ in 0..u64::MAX {
        if script.read_until(b'\n', &mut line)? == 0 {
            break;
        }
        let _ = runner.line(known, line.as_slice(), &mut text)?;
        line.clear();
        if script.buffer().is_empty() {
            out.write_all(text.as_bytes())?;
            text.clear();
        }
    }
    out.write_all(text.as_bytes())?;
    let tally = runner.tally();
    write_last_line(tally, out)?;
    Ok(tally)
}

// Writes the last line at once.
fn write_last_line<W: Write>(tally: Tally, out: &mut W) -> anyhow::Result<()>
    ensures { OnOk result (Appends (W.contents out.old) (W.contents out.new) (tally_text tally ++ 10 ∷ [])) }
{
    let line = last_line(tally)?;
    out.write_all(line.as_str().as_bytes())?;
    Ok(())
}

// The last line, for which no memory from the heap is needed. The longest has 124 bytes; that is tested.
#[tactic(auto, using(crate::proofs::Written::holds_pieces))]
fn last_line(tally: Tally) -> Result<ArrayString<124>, fmt::Error>
    ensures { IfOk result (λ line. line.bytes ≡ tally_text tally ++ 10 ∷ []) }
{
    let mut line = ArrayString::new();
    writeln!(line, "{tally}")?;
    Ok(line)
}
