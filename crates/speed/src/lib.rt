//! The library's functions under C names, for the benchmark, which links them into a Rust program.
//! A refusal is a number, or 0 where the answer is a count: C has no `Result`. Each export stays: its name is C's.
#![tactic(auto)]

ghost use Rattle.std.specs.Prelude.{◌≡◌, length};
ghost use Rattle.policy.specs.Read.{read_of};
ghost use Rattle.tree.specs.Action.{tree_action_of};
ghost use Rattle.compile.specs.Compile.{answer_of, table_after, scratch_after, compile_count};
ghost use Rattle.table.specs.Scan.{scan_of, scan_action, scan_tried};
ghost use Rattle.priority.specs.Numbering.{number_of, answer_count, priorities_after, chain_after};
ghost use Rattle.hidden.specs.Hidden.{kept_of, table_kept, kept_count};
ghost use Rattle.capture.specs.Capture.{capture_of, answers_after};
ghost use Rattle.refusal.specs.Refusals.{answer_number};
ghost use Rattle.speed.specs.Answers.{tree_action, with_action, captured_count};

use action::{Action, ActionWords};
use capture::scan_capture;
use compile::compile;
use hidden::drop_hidden;
use policy::read;
use priority::number;
use refusal::Refusal;
use table::{Found, scan};
use tree::tree_action;
use words::copy;

/// The number of a policy file's refusal, 0 where it is accepted.
#[unsafe(no_mangle)]
pub extern "C" fn speed_read(file: &[u32]) -> u32
    ensures { result ≡ answer_number (read_of file.now) }
{
    answer_number(read(file))
}

/// The action's two words; the answer is the number of the refusal, 0 where there is none.
#[unsafe(no_mangle)]
pub extern "C" fn speed_tree(file: &[u32], packet: &[u32], given: &mut [u32]) -> u32
    ensures value { result ≡ answer_number (tree_action_of file.now packet.now) }
    ensures given_after { given.new
        ≡ with_action given.old (tree_action (tree_action_of file.now packet.now)) }
{
    let answer = tree_action(file, packet);
    put_action(given, answer.unwrap_or(Action::DONT_CARE));
    answer_number(answer)
}

/// The compile; the answer is the row count, 0 where it is refused.
#[unsafe(no_mangle)]
pub extern "C" fn speed_compile(file: &[u32], table: &mut [u32], scratch: &mut [u32]) -> usize
    ensures value { result ≡ compile_count (answer_of file.now table.old scratch.old) }
    ensures table_after { table.new ≡ table_after file.now table.old scratch.old }
    ensures scratch_after { scratch.new ≡ scratch_after file.now table.old scratch.old }
{
    compile(file, table, scratch).unwrap_or(0)
}

/// The action's two words; the answer is how many rows were tried, 0 where the scan is refused.
#[unsafe(no_mangle)]
pub extern "C" fn speed_scan(table: &[u32], packet: &[u32], given: &mut [u32]) -> usize
    ensures value { result ≡ scan_tried (scan_of table.now packet.now) }
    ensures given_after { given.new
        ≡ with_action given.old (scan_action (scan_of table.now packet.now)) }
{
    let found = scan(table, packet).unwrap_or(Found {
        action: Action::DONT_CARE,
        tried: 0,
    });
    put_action(given, found.action);
    found.tried
}

/// The numbering; the answer is how many priorities there are, 0 where it is refused.
#[unsafe(no_mangle)]
pub extern "C" fn speed_number(table: &[u32], priorities: &mut [u32], chain: &mut [u32]) -> u32
    ensures value { result
        ≡ answer_count (number_of table.now (length priorities.old) (length chain.old)) }
    ensures priorities_after { priorities.new
        ≡ priorities_after table.now priorities.old chain.old }
    ensures chain_after { chain.new ≡ chain_after table.now priorities.old chain.old }
{
    number(table, priorities, chain).unwrap_or(0)
}

/// The pass that takes hidden rows out; the answer is how many rows stay, 0 where it is refused.
#[unsafe(no_mangle)]
pub extern "C" fn speed_hidden(table: &mut [u32]) -> usize
    ensures value { result ≡ kept_count (kept_of table.old) }
    ensures table_after { table.new ≡ table_kept table.old }
{
    drop_hidden(table).unwrap_or(0)
}

/// The scan of a table for each packet of a capture; the answer is how many packets there are, 0 where it is refused.
#[unsafe(no_mangle)]
pub extern "C" fn speed_capture(table: &[u32], packets: &[u32], answers: &mut [u32]) -> usize
    ensures value { result ≡ captured_count (capture_of table.now packets.now (length answers.old)) }
    ensures answers_after { answers.new ≡ answers_after table.now packets.now answers.old }
{
    scan_capture(table, packets, answers).unwrap_or(0)
}

// The number of a refusal, 0 where there is none.
fn answer_number<T: Drop>(answer: Result<T, Refusal>) -> u32
    ensures { result ≡ answer_number answer }
{
    match answer {
        Ok(_) => 0,
        Err(refusal) => refusal.reason.number(),
    }
}

// Stores an action's kind and rate at the start of a buffer that has room for them.
fn put_action(given: &mut [u32], a: Action)
    ensures { given.new ≡ with_action given.old a }
{
    copy(given, 0, &ActionWords::from(a));
}
