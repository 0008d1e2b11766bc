//! The command `qadhmuleh`: which switch rows a policy gives, what they say of a packet, and why they have so many
//! priorities. The command line and the files are read here; what is answered stands in crate `commands`.
#![tactic(auto)]

mod line;

use anyhow::{Context, Result, bail};
use clap::ArgMatches;
use commands::{
    Answer, Form, Format, Source, ask, check, check_form, convert, list, reformat, scan_packets,
    why,
};
use line::{FORM, FORMAT, PACKET, PACKETS, POLICY, command};
use std::alloc::{AllocError, Global};
use std::fs;
use std::io::{Read, Write};
use std::process::ExitCode;

// The exit status of an answer of no, and that of a wrong call or of a file that cannot be read or written.
const NO: u8 = 1;

const WRONG: u8 = 2;

// The name under which standard input is read, and that under which it is shown.
const STANDARD_INPUT: &str = "-";

const STANDARD_INPUT_SHOWN: &str = "<stdin>";

fn main(rt: HostRuntime) -> ExitCode {
    match start(&rt) {
        Ok(status) => status,
        Err(error) => {
            say(&rt, &error);
            ExitCode::from(WRONG)
        }
    }
}

// Says an error. Where standard error cannot be written, the exit status alone tells.
fn say(rt: &HostRuntime, error: &anyhow::Error) {
    let _ = eprintln!(rt; "error: {error:#}");
}

// Reads the command line, and answers it.
fn start(rt: &HostRuntime) -> Result<ExitCode> {
    let alloc = rt.alloc();
    let words: Vec<String> = std::env::args(rt)
        .context("cannot read the arguments")?
        .collect(alloc)
        .context("cannot read the arguments")?;
    match command(alloc)?.try_get_matches_from(words.as_slice()) {
        Ok(matches) => run(rt, &matches),
        Err(error) => {
            error.print(rt)?;
            Ok(ExitCode::from(error.exit_code() as u8))
        }
    }
}

// Answers a command, and writes what it gives.
fn run(rt: &HostRuntime, matches: &ArgMatches<'_>) -> Result<ExitCode> {
    let Some((name, matches)) = matches.subcommand() else {
        return Ok(ExitCode::SUCCESS);
    };
    if stdin_count(matches) > 1 {
        bail!("standard input can be read once, and `-` is given more than once");
    }
    if name == line::CHECK {
        return run_check(rt, matches);
    }
    let policy = matches.get_str(POLICY).unwrap_or("");
    let text = read(rt, policy)?;
    let source = Source {
        name: shown(policy),
        text: &text,
    };
    let answer = answer(rt, name, source, matches)?;
    write(rt, &answer)
}

// How many of the files of a call are standard input.
fn stdin_count(matches: &ArgMatches<'_>) -> usize {
    let policies = matches.get_strs(POLICY).unwrap_or(&[]);
    let packets = matches.get_strs(PACKETS).unwrap_or(&[]);
    policies
        .iter()
        .chain(packets)
        .filter(|path| **path == STANDARD_INPUT)
        .count()
}

// What a command of one policy gives.
fn answer(
    rt: &HostRuntime,
    name: &str,
    source: Source<'_>,
    matches: &ArgMatches<'_>,
) -> Result<Answer> {
    let alloc = rt.alloc();
    let format = format_of(matches);
    match name {
        line::LIST => Ok(list(alloc, source, format)?),
        line::ASK => {
            let words = words_of(alloc, matches)?;
            let packet = Source {
                name: "PACKET",
                text: words.as_bytes(),
            };
            Ok(ask(alloc, source, packet, format)?)
        }
        line::WHY => Ok(why(alloc, source, format)?),
        line::FMT if matches.get_flag(line::CANONICAL) => Ok(check_form(alloc, source)?),
        line::FMT => Ok(reformat(alloc, source)?),
        line::CONVERT => Ok(convert(alloc, source, form_of(matches))?),
        _ => {
            let packets = matches.get_str(PACKETS).unwrap_or("");
            let text = read(rt, packets)?;
            let packets = Source {
                name: shown(packets),
                text: &text,
            };
            Ok(scan_packets(alloc, source, packets, format)?)
        }
    }
}

// Checks all policies that can be read. If one cannot, that is said, and the call was wrong.
fn run_check(rt: &HostRuntime, matches: &ArgMatches<'_>) -> Result<ExitCode> {
    let alloc = rt.alloc();
    let mut names = Vec::new(alloc);
    let mut texts = Vec::new(alloc);
    let mut unread = false;
    for policy in matches.get_strs(POLICY).unwrap_or(&[]) {
        match read(rt, policy) {
            Ok(text) => {
                names.push(shown(policy))?;
                texts.push(text)?;
            }
            Err(error) => {
                say(rt, &error);
                unread = true;
            }
        }
    }
    let mut sources = Vec::new(alloc);
    for (name, text) in names.iter().zip(texts.iter()) {
        sources.push(Source { name, text })?;
    }
    let status = write(rt, &check(alloc, &sources, format_of(matches))?)?;
    Ok(if unread {
        ExitCode::from(WRONG)
    } else {
        status
    })
}

// The bytes of a file, or of standard input.
fn read(rt: &HostRuntime, path: &str) -> Result<Vec<u8>> {
    if path == STANDARD_INPUT {
        let mut text = Vec::new(rt.alloc());
        rt.stdin()
            .read_to_end(&mut text)
            .context("cannot read standard input")?;
        return Ok(text);
    }
    Ok(fs::read(rt, path).context(format_args!("cannot read {path}"))?)
}

// The name of a file as it is shown.
fn shown(path: &str) -> &str {
    if path == STANDARD_INPUT {
        STANDARD_INPUT_SHOWN
    } else {
        path
    }
}

// Writes what a command gives to standard output and to standard error, and answers the exit status.
fn write(rt: &HostRuntime, answer: &Answer) -> Result<ExitCode> {
    rt.stdout()
        .write_all(&answer.out)
        .context("cannot write standard output")?;
    rt.stderr()
        .write_all(&answer.err)
        .context("cannot write standard error")?;
    Ok(if answer.yes {
        ExitCode::SUCCESS
    } else {
        ExitCode::from(NO)
    })
}

// The words of a packet, with a blank between each two.
fn words_of(alloc: Global, matches: &ArgMatches<'_>) -> Result<String, AllocError> {
    let mut text = String::new(alloc);
    for (i, word) in matches.get_strs(PACKET).unwrap_or(&[]).iter().enumerate() {
        if i != 0 {
            text.push(' ')?;
        }
        text.push_str(word)?;
    }
    Ok(text)
}

fn format_of(matches: &ArgMatches<'_>) -> Format {
    match matches.get_str(FORMAT) {
        Some("json") => Format::Json,
        Some("listing") => Format::Listing,
        _ => Format::Words,
    }
}

fn form_of(matches: &ArgMatches<'_>) -> Form {
    match matches.get_str(FORM) {
        Some("notation") => Form::Notation,
        Some("words") => Form::Words,
        Some("bytes") => Form::Bytes,
        _ => Form::Other,
    }
}
