//! Rules, and their actions.

ghost use Rattle.notation.specs.Views.{rule_entry, rule_entries};
ghost use Rattle.canon.specs.Text.{rate_text, action_text, rule_text, rules_text};

use crate::matches::put_match;
use crate::parts::{ALLOW, DENY, put_indent, put_number};
use action::Action;
use notation::Rule;
use streams::Sink;

// The units of a rate, in kbit/s.
const GBIT: u32 = 1_000_000;

const MBIT: u32 = 1_000;

// Rules one behind the other, in so many nodes.
pub(crate) fn put_rules<S: Sink>(depth: usize, rules: &[Rule], sink: &mut S)
    ensures { S.gives sink.old (rules_text depth (rule_entries rules.now)) sink.new }
{
    // Once the rules that are left are put, all are.
    for rule in rules {
        put_rule(depth, rule, sink);
    }
}

// The line of a rule.
#[tactic(auto, unfolding(crate::specs::Text::rule_text))]
fn put_rule<S: Sink>(depth: usize, rule: &Rule, sink: &mut S)
    ensures { S.gives sink.old (rule_text depth (rule_entry rule.now)) sink.new }
{
    put_indent(depth, sink);
    sink.put(rule.label.as_slice());
    sink.put(b": ");
    put_action(rule.row.action, sink);
    put_match(rule.row.matching, sink);
    sink.put(b"\n");
}

/// Puts an action in the words of the notation, with no blank before it.
#[tactic(auto, unfolding(crate::specs::Text::action_text))]
pub fn put_action<S: Sink>(action: Action, sink: &mut S)
    ensures { S.gives sink.old (action_text action) sink.new }
{
    match action {
        Action::DontCare => sink.put(b"none"),
        Action::Allow => sink.put(ALLOW),
        Action::Deny => sink.put(DENY),
        Action::Gmb(rate) => {
            sink.put(b"reserve ");
            put_rate(rate, sink);
        }
    }
}

// A rate by the largest unit of which it is so many.
#[tactic(auto, unfolding(crate::specs::Text::rate_text))]
fn put_rate<S: Sink>(rate: u32, sink: &mut S)
    ensures { S.gives sink.old (rate_text rate) sink.new }
{
    if rate % GBIT == 0 {
        put_number(rate / GBIT, sink);
        sink.put(b" Gbit/s");
    } else if rate % MBIT == 0 {
        put_number(rate / MBIT, sink);
        sink.put(b" Mbit/s");
    } else {
        put_number(rate, sink);
        sink.put(b" kbit/s");
    }
}
