// Texts of runs: each begins with a line `run NAME` and a line of figures, and then has a call on a line.
ghost use Rattle.std.specs.Prelude.{◌≤◌, length, IfOk, Some};
ghost use Rattle.bench.specs.Lines.{wanted_text, fault_text};

use crate::calls::call_of;
use crate::words::{figure, is_blank, words_of};
use figures::Form;
use machine::Call;
use records::{Branch, Kind, Reading};
use std::alloc::{AllocError, AllocFailed, Global};
use std::fmt;
use std::str::FromStr;

// Which pool a keeper has.
#[derive(Clone, Copy)]
pub enum PoolKind {
    Stack,
    Row,
}

// Not one with that of a kind of record: an `impl` for all that has words would overlap. A word that names none says no more.
impl FromStr for PoolKind {
    ghost use Rattle.bench.specs.Words.{pool_word, IsNamed};

    type Err = ();

    ghost from_str_gives = { IsNamed pool_word };

    fn from_str(word: &str) -> Result<PoolKind, ()> {
        match word {
            "stack" => Ok(PoolKind::Stack),
            "row" => Ok(PoolKind::Row),
            _ => Err(()),
        }
    }
}

// Which kind of record the table has.
#[derive(Clone, Copy)]
enum RecordKind {
    Readings,
    Branches,
}

impl FromStr for RecordKind {
    ghost use Rattle.bench.specs.Words.{kind_word, IsNamed};

    type Err = ();

    ghost from_str_gives = { IsNamed kind_word };

    fn from_str(word: &str) -> Result<RecordKind, ()> {
        match word {
            "1" => Ok(RecordKind::Readings),
            "2" => Ok(RecordKind::Branches),
            _ => Err(()),
        }
    }
}

// What a keeper is made with, and the kind of its table's records.
#[derive(Clone, Copy)]
struct Making {
    form: Form,
    pool: PoolKind,
    kind: RecordKind,
}

// The calls of a run, with records of one kind.
#[derive(Drop)]
pub enum Calls {
    OnReadings(Vec<Call<Reading>>),
    OnBranches(Vec<Call<Branch>>),
}

// A run that can be played.
#[derive(Drop)]
pub struct Script {
    pub name: String,
    pub form: Form,
    pub pool: PoolKind,
    pub calls: Calls,
}

// What a line should be.
#[derive(Clone, Copy)]
pub enum Wanted {
    RunName,
    FigureLine,
    OneCall,
}

// Why a text is not read: the line with this number, from 1 on, is not what it should be, or there is no memory.
#[derive(Clone, Copy)]
pub enum ScriptFault {
    BadLine(usize, Wanted),
    NoMemory,
}

// One for each way in which memory is refused: an `impl` over both would overlap. There is nothing more to say of the error.
impl From<AllocError> for ScriptFault {
    fn from(_error: AllocError) -> ScriptFault {
        ScriptFault::NoMemory
    }
}

impl<T: Drop> From<AllocFailed<T>> for ScriptFault {
    fn from(_refused: AllocFailed<T>) -> ScriptFault {
        ScriptFault::NoMemory
    }
}

// What the words of a line of figures say.
fn making_of(words: &[&str]) -> Option<Making> {
    let ["make", w, h, n, m, f, g, era, pool, kind] = words else {
        return None;
    };
    let form = Form {
        workers: figure(w, "W=")?,
        holds: figure(h, "H=")?,
        blocks: figure(n, "N=")?,
        live: figure(m, "M=")?,
        taking_period: figure(f, "F=")?,
        trying_period: figure(g, "G=")?,
        starting_era: figure(era, "era=")?,
    };
    Some(Making {
        form,
        pool: figure(pool, "pool=")?,
        kind: figure(kind, "kind=")?,
    })
}

// The calls that lines write up to the next run, and the lines from there on; a line without words writes none. The first has this number.
fn read_calls<'t, 'a, K: Kind>(
    heap: Global,
    number: usize,
    lines: &'t [&'a str],
) -> Result<(Vec<Call<K>>, &'t [&'a str]), ScriptFault>
    ensures { IfOk result (λ p. length p.1.now ≤ length lines.now) }
{
    // A `for`: a chain would have to hand on three kinds of `?`.
    let mut calls = Vec::new(heap);
    for (place, line) in lines.iter().enumerate() {
        let words = words_of(heap, line)?;
        match words.as_slice() {
            [] => (),
            ["run", ..] => return Ok((calls, &lines[place..])),
            words => {
                let fault = ScriptFault::BadLine(number.saturating_add(place), Wanted::OneCall);
                calls.push(call_of(words).ok_or(fault)?)?;
            }
        }
    }
    Ok((calls, &[]))
}

// The run that its first line, which has this number, and the later ones up to the next run write; and the lines from there on.
fn read_run<'t, 'a>(
    heap: Global,
    number: usize,
    first: &str,
    later: &'t [&'a str],
) -> Result<(Script, &'t [&'a str]), ScriptFault>
    ensures { IfOk result (λ p. length p.1.now ≤ length later.now) }
{
    let words = words_of(heap, first)?;
    let ["run", name] = words.as_slice() else {
        return Err(ScriptFault::BadLine(number, Wanted::RunName));
    };
    // The line after the first, whether there is one or not.
    let second = number.saturating_add(1);
    let fault = ScriptFault::BadLine(second, Wanted::FigureLine);
    let (figures, lines) = later.split_first().ok_or(fault)?;
    let figures = words_of(heap, figures)?;
    let Making { form, pool, kind } = making_of(figures.as_slice()).ok_or(fault)?;
    let name = String::from_str(heap, name)?;
    let third = second.saturating_add(1);
    let (calls, next) = match kind {
        RecordKind::Readings => {
            let (calls, next) = read_calls(heap, third, lines)?;
            (Calls::OnReadings(calls), next)
        }
        RecordKind::Branches => {
            let (calls, next) = read_calls(heap, third, lines)?;
            (Calls::OnBranches(calls), next)
        }
    };
    let script = Script {
        name,
        form,
        pool,
        calls,
    };
    Ok((script, next))
}

// The runs that a text writes, or the first line that is not as it should be.
pub fn read_scripts(heap: Global, text: &str) -> Result<Vec<Script>, ScriptFault> {
    let lines: Vec<&str> = text.lines().collect(heap)?;
    let count = lines.len();
    // Lines without words may stand before the first run.
    let start = lines.iter().position(|line| !is_blank(line));
    let (_, mut rest) = lines.split_at(start.unwrap_or(count));
    let mut scripts = Vec::new(heap);
    while let [first, later @ ..] = rest {
        let number = count - later.len();
        let (script, next) = read_run(heap, number, first, later)?;
        scripts.push(script)?;
        rest = next;
    }
    Ok(scripts)
}

impl fmt::Display for Wanted {
    ghost output = { λ wanted. Some (wanted_text wanted) };

    fn fmt<W: fmt::Write>(&self, f: &mut fmt::Formatter<W>) -> fmt::Result {
        match *self {
            Wanted::RunName => f.write_str("run and a name"),
            Wanted::FigureLine => f.write_str(
                "make W=1 H=1 N=2 M=2 F=1 G=1 era=1 pool=stack kind=1, with figures of your own, pool=row or kind=2",
            ),
            Wanted::OneCall => f.write_str(
                "take W, look W HOLD CELL, drop W, retire W BLOCK, relink W CELL EXPECTED NEW, write W BLOCK BYTES, read W HOLD or turn W",
            ),
        }
    }
}

impl fmt::Display for ScriptFault {
    ghost output = { λ fault. Some (fault_text fault) };

    fn fmt<W: fmt::Write>(&self, f: &mut fmt::Formatter<W>) -> fmt::Result {
        match *self {
            ScriptFault::BadLine(number, wanted) => write!(f, "line {number} should be {wanted}"),
            ScriptFault::NoMemory => f.write_str("there is no memory for it"),
        }
    }
}
