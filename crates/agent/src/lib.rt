//! The agent's calls under their C names. Each slice is a pointer and then a length in bytes. What a C program has to
//! see to stands in agent/c/qadhmuleh_agent.h. Each export stays: its name is C's.
#![tactic(auto)]

ghost use Rattle.std.specs.Prelude.{◌≡◌};
ghost use Rattle.exports.specs.Exports.{scan_number, scan_answer};
ghost use Rattle.exports.specs.Exports.{numbering_number, numbering_answer, priorities_left, chain_left};

/// The scan of a table for a packet.
#[unsafe(no_mangle)]
pub extern "C" fn agent_scan(table: &[u8], packet: &[u8], answer: &mut [u8]) -> u32
    ensures value { result ≡ scan_number table.now packet.now answer.old }
    ensures answer_after { answer.new ≡ scan_answer table.now packet.now answer.old }
{
    exports::agent_scan(table, packet, answer)
}

/// The numbering of a table.
#[unsafe(no_mangle)]
pub extern "C" fn agent_number(
    table: &[u8],
    priorities: &mut [u8],
    chain: &mut [u8],
    answer: &mut [u8],
) -> u32
    ensures value { result ≡ numbering_number table.now priorities.old chain.old answer.old }
    ensures answer_after { answer.new
        ≡ numbering_answer table.now priorities.old chain.old answer.old }
    ensures priorities_after { priorities.new
        ≡ priorities_left table.now priorities.old chain.old answer.old }
    ensures chain_after { chain.new ≡ chain_left table.now priorities.old chain.old answer.old }
{
    exports::agent_number(table, priorities, chain, answer)
}
