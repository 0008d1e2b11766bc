//! `check`: what is wrong in policies, and what may stand and is probably not meant.

use crate::answer::{Answer, Format, Source};
use crate::compiled::rows_of;
use crate::loaded::{Loaded, load};
use crate::names::rules_text;
use crate::problem::{Code, Problem, Warning};
use crate::refused::{room_problem, unforeseen};
use crate::{json, problem};
use canon::Kept;
use idle::{IdleError, idle};
use row::Rows;
use serde_json::{Value, json};
use std::alloc::{AllocError, Global};
use streams::Sink;

// What is found in a text: whether it is a policy that stands, and the problems.
#[derive(Drop)]
struct Findings {
    accepted: bool,
    problems: Vec<Problem>,
}

/// What is wrong in the policies of some texts, and warnings: nothing for people where there is neither. The answer is
/// yes where each is a policy.
pub fn check(alloc: Global, sources: &[Source<'_>], format: Format) -> Result<Answer, AllocError> {
    let mut out = Kept::new(alloc);
    let mut values = Vec::new(alloc);
    let mut yes = true;
    let mut shown = false;
    for source in sources {
        let findings = findings_of(alloc, source.text)?;
        yes = yes && findings.accepted;
        if format == Format::Json {
            values.push(findings_value(alloc, *source, &findings)?)?;
        } else {
            for problem in &findings.problems {
                if shown {
                    out.put(b"\n");
                }
                problem::put(*source, problem, &mut out);
                shown = true;
            }
        }
    }
    if format == Format::Json {
        let values = Value::Array(values);
        out.put(&json::text(alloc, &json!(in alloc; {"policies": values})?)?);
    }
    Ok(Answer {
        yes,
        out: out.into_bytes()?,
        err: Vec::new(alloc),
    })
}

fn findings_of(alloc: Global, text: &[u8]) -> Result<Findings, AllocError> {
    let mut problems = Vec::new(alloc);
    let accepted = match load(alloc, text)? {
        Ok(loaded) => {
            warn(alloc, &loaded, &mut problems)?;
            true
        }
        Err(problem) => {
            problems.push(problem)?;
            false
        }
    };
    Ok(Findings { accepted, problems })
}

// Warns of rules that no packet meets, of more rows than room, and of rules that decide nothing.
fn warn(alloc: Global, loaded: &Loaded, problems: &mut Vec<Problem>) -> Result<(), AllocError> {
    let rows = match rows_of(alloc, &loaded.words)? {
        Ok(rows) => rows,
        Err(_) => {
            warn_unmet(alloc, loaded, &[], problems)?;
            return Ok(problems.push(room_problem(alloc, Code::Warning(Warning::Room))?)?);
        }
    };
    match idle(alloc, &loaded.words, &rows.table) {
        Ok(places) => warn_unmet(alloc, loaded, &places, problems),
        Err(IdleError::Refused(refusal)) => Ok(problems.push(unforeseen(alloc, refusal)?)?),
        Err(IdleError::Memory) => Err(AllocError),
    }
}

// Warns of the rules that no packet meets, and of those at some places, which decide nothing.
fn warn_unmet(
    alloc: Global,
    loaded: &Loaded,
    idle: &[usize],
    problems: &mut Vec<Problem>,
) -> Result<(), AllocError> {
    let mut atom = 0usize;
    for row in Rows::of(loaded.atoms()) {
        if row.matching.is_empty() {
            let help = if row.matching.contradicts() {
                b"a port is met only by packets of a protocol that has ports, tcp or udp".as_slice()
            } else {
                b"".as_slice()
            };
            problems.push(warning(alloc, loaded, atom, Warning::Unmet, help)?)?;
        } else if idle.contains(&atom) {
            let help = b"without it alone each packet gets the same action".as_slice();
            problems.push(warning(alloc, loaded, atom, Warning::Idle, help)?)?;
        }
        atom = atom.saturating_add(1);
    }
    Ok(())
}

// A warning that names a rule.
fn warning(
    alloc: Global,
    loaded: &Loaded,
    atom: usize,
    kind: Warning,
    help: &[u8],
) -> Result<Problem, AllocError> {
    let rule = rules_text(alloc, &loaded.policy, &[atom])?;
    let mut message = Kept::new(alloc);
    if kind == Warning::Unmet {
        message.put(b"no packet meets ");
    }
    message.put(b"`");
    message.put(&rule);
    message.put(b"`");
    if kind == Warning::Idle {
        message.put(b" decides nothing in any row");
    }
    Ok(Problem {
        code: Code::Warning(kind),
        at: loaded.place_of_rule(atom),
        message: message.into_bytes()?,
        help: Vec::from_slice(alloc, help)?,
        rule,
    })
}

fn findings_value(
    alloc: Global,
    source: Source<'_>,
    findings: &Findings,
) -> Result<Value, AllocError> {
    let mut errors = Vec::new(alloc);
    let mut warnings = Vec::new(alloc);
    for problem in &findings.problems {
        let value = json::problem(alloc, source, problem)?;
        if problem.is_warning() {
            warnings.push(value)?;
        } else {
            errors.push(value)?;
        }
    }
    let errors = Value::Array(errors);
    let warnings = Value::Array(warnings);
    json!(in alloc; {
        "file": source.name,
        "accepted": findings.accepted,
        "errors": errors,
        "warnings": warnings
    })
}
