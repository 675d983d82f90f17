// Reads a script from standard input, and prints what comes of each line.
#![tactic(auto)]

use anyhow::{anyhow, bail};
use script::{ArgumentsLine, FunctionLine, Line, read_line};
use session::{Failure, Session};
use std::fmt::Display;
use std::io::{BufRead, BufReader};
use std::process::ExitCode;
use terms::Refusal;
use words::{ArgumentsWords, FunctionWords};

mod words;

// The refusal on standard output, and what it means on standard error. (Handle and line number go along as they are: a
// struct of them would be made for each line.)
fn print_refusal(
    rt: &HostRuntime,
    number: u64,
    refusal: Refusal,
    words: &impl Display,
) -> anyhow::Result<()> {
    println!(rt; "{refusal}")?;
    eprintln!(rt; "line {number}: {words}")?;
    Ok(())
}

fn add_function(
    rt: &HostRuntime,
    session: &mut Session,
    number: u64,
    line: &FunctionLine,
) -> anyhow::Result<()> {
    match session.add_function(rt.alloc(), &line.text, line) {
        Ok(n) => println!(rt; "function {n}")?,
        Err(Failure::Refused(refusal)) => {
            print_refusal(rt, number, refusal, &FunctionWords { refusal, line })?;
        }
        Err(Failure::Memory) => bail!("not enough memory"),
    }
    Ok(())
}

fn resolve(
    rt: &HostRuntime,
    session: &Session,
    number: u64,
    line: &ArgumentsLine,
) -> anyhow::Result<()> {
    let heap = rt.alloc();
    match session.answer(heap, &line.text, line) {
        Ok(answer) => println!(rt; "arguments {answer}")?,
        Err(Failure::Refused(refusal)) => {
            let params = match session.newest(line.name.span.part_of(&line.text)) {
                Some(function) => function.param_names(heap)?,
                None => Vec::new(heap),
            };
            let words = ArgumentsWords {
                refusal,
                line,
                params: &params,
            };
            print_refusal(rt, number, refusal, &words)?;
        }
        Err(Failure::Memory) => bail!("not enough memory"),
    }
    Ok(())
}

// Does what a line says.
fn obey(rt: &HostRuntime, session: &mut Session, number: u64, line: &[u8]) -> anyhow::Result<()> {
    match read_line(rt.alloc(), line) {
        Ok(Line::Blank) => Ok(()),
        Ok(Line::Function(line)) => add_function(rt, session, number, &line),
        Ok(Line::Arguments(line)) => resolve(rt, session, number, &line),
        Err(fault) => Err(anyhow!("line {number}: {fault}")),
    }
}

fn run(rt: &HostRuntime) -> anyhow::Result<()> {
    let mut session = Session::new(rt.alloc());
    let lines = BufReader::new(rt.alloc(), rt.stdin())?.lines(rt.alloc());
    for (number, line) in (1..).zip(lines) {
        match line {
            Ok(line) => obey(rt, &mut session, number, line.as_bytes())?,
            Err(error) => bail!("line {number}: {error}"),
        }
    }
    Ok(())
}

fn main(rt: HostRuntime) -> anyhow::Result<ExitCode> {
    match run(&rt) {
        Ok(()) => Ok(ExitCode::SUCCESS),
        Err(error) => {
            eprintln!(rt; "{error}")?;
            Ok(ExitCode::FAILURE)
        }
    }
}
