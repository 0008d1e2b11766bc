//! The command line.

use clap::{Arg, ArgAction, Command};
use std::alloc::{AllocError, Global};

// The commands.
pub const CHECK: &str = "check";

pub const LIST: &str = "list";

pub const ASK: &str = "ask";

pub const WHY: &str = "why";

pub const FMT: &str = "fmt";

pub const CONVERT: &str = "convert";

pub const CAPTURE: &str = "capture";

// Their arguments.
pub const POLICY: &str = "POLICY";

pub const PACKET: &str = "PACKET";

pub const PACKETS: &str = "PACKETS";

pub const FORMAT: &str = "format";

pub const FORM: &str = "to";

pub const CANONICAL: &str = "check";

/// The whole command line.
pub fn command<'a>(alloc: Global) -> Result<Command<'a>, AllocError> {
    Command::new(alloc, "qadhmuleh")
        .version("1.0")
        .about("Policy trees as switch rows, with the fewest priorities there can be. Proved.")
        .after_help(
            "POLICY is a file in the notation (docs/NOTATION.md) or of decimal words (docs/FORMAT.md), \
             or - for standard input.\n\
             Exit status: 0 yes; 1 a policy, a packet or a line is refused; \
             2 a wrong call, or a file that cannot be read or written.",
        )
        .subcommand_required(true)
        .arg_required_else_help(true)
        .subcommand(check(alloc)?)?
        .subcommand(list(alloc)?)?
        .subcommand(ask(alloc)?)?
        .subcommand(why(alloc)?)?
        .subcommand(fmt(alloc)?)?
        .subcommand(convert(alloc)?)?
        .subcommand(capture(alloc)?)
}

fn check<'a>(alloc: Global) -> Result<Command<'a>, AllocError> {
    Command::new(alloc, CHECK)
        .about("Say what is wrong in policies, and warn of rules that have no effect")
        .after_help("Example: qadhmuleh check examples/tenant.q")
        .arg(format(alloc, ["words", "json"].as_slice()))?
        .arg(
            policy(alloc)
                .action(ArgAction::Append)
                .num_args(1..)
                .help("The policies, or - for standard input"),
        )
}

fn list<'a>(alloc: Global) -> Result<Command<'a>, AllocError> {
    Command::new(alloc, LIST)
        .about(
            "Print the rows of a policy as they are tried, with priorities and the rules that each comes from",
        )
        .after_help("Example: qadhmuleh list examples/tenant.q")
        .arg(format(alloc, ["words", "listing", "json"].as_slice()))?
        .arg(policy(alloc))
}

fn ask<'a>(alloc: Global) -> Result<Command<'a>, AllocError> {
    Command::new(alloc, ASK)
        .about("Say what a policy does with a packet, by which row, and how the tree settles it")
        .after_help(
            "PACKET is six words: in-port, source, destination, protocol, source port, destination port.\n\
             Example: qadhmuleh ask examples/tenant.q 1 10.1.1.1 10.7.3.9 tcp 40000 80",
        )
        .arg(format(alloc, ["words", "json"].as_slice()))?
        .arg(policy(alloc))?
        .arg(
            Arg::new(alloc, PACKET)
                .required(true)
                .action(ArgAction::Append)
                .num_args(1..)
                .help("The packet, six words"),
        )
}

fn why<'a>(alloc: Global) -> Result<Command<'a>, AllocError> {
    Command::new(alloc, WHY)
        .about(
            "Show the chain of rows that forces the number of priorities, with a packet for each link",
        )
        .after_help("Example: qadhmuleh why examples/tenant.q")
        .arg(format(alloc, ["words", "json"].as_slice()))?
        .arg(policy(alloc))
}

fn fmt<'a>(alloc: Global) -> Result<Command<'a>, AllocError> {
    Command::new(alloc, FMT)
        .about("Print a policy in its canonical text, without its comments")
        .after_help("Example: qadhmuleh fmt examples/tenant.q")
        .arg(
            Arg::new(alloc, CANONICAL)
                .long("check")
                .action(ArgAction::SetTrue)
                .help(
                    "Print nothing, and exit with 1 where the text differs from its canonical text",
                ),
        )?
        .arg(policy(alloc))
}

fn convert<'a>(alloc: Global) -> Result<Command<'a>, AllocError> {
    Command::new(alloc, CONVERT)
        .about(
            "Print a policy in another form: decimal words for the notation, the notation for words",
        )
        .after_help("Example: qadhmuleh convert examples/tenant.q")
        .arg(
            Arg::new(alloc, FORM)
                .long("to")
                .value_name("FORM")
                .value_parser(["notation", "words", "bytes"].as_slice())
                .help(
                    "The form to print; if none is given, words for the notation and the notation for words",
                ),
        )?
        .arg(policy(alloc))
}

fn capture<'a>(alloc: Global) -> Result<Command<'a>, AllocError> {
    Command::new(alloc, CAPTURE)
        .about("Say what the rows of a policy give each packet of a file, one a line")
        .after_help("Example: qadhmuleh capture examples/tenant.q examples/tenant.packets")
        .arg(format(alloc, ["words", "json"].as_slice()))?
        .arg(policy(alloc))?
        .arg(
            Arg::new(alloc, PACKETS)
                .required(true)
                .action(ArgAction::Set)
                .help("A file of packets, six words a line, or - for standard input"),
        )
}

fn policy<'a>(alloc: Global) -> Arg<'a> {
    Arg::new(alloc, POLICY)
        .required(true)
        .action(ArgAction::Set)
        .help("The policy, or - for standard input")
}

fn format<'a>(alloc: Global, formats: &'a [&'a str]) -> Arg<'a> {
    Arg::new(alloc, FORMAT)
        .long("format")
        .value_name("FORMAT")
        .value_parser(formats)
        .default_value("words")
        .help("How to print")
}
