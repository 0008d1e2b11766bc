//! Replies as words: number and place, for a policy file the law and three actions too, then the values, of which a
//! capture has none, then every buffer that was lent for writing. A success has zeros for its number, a refusal for its
//! values. An agent's call has its number, and then every such buffer as bytes, first that of the answer.

ghost use Rattle.std.specs.Prelude.{◌≡◌, List, ℕ, length, true};
ghost use Rattle.words.specs.Records.{flat};
ghost use Rattle.words.specs.Bytes.{bytes_of};
ghost use Rattle.compile.specs.Compile.{table_after, scratch_after};
ghost use Rattle.priority.specs.Numbering.{priorities_after, chain_after};
ghost use Rattle.hidden.specs.Hidden.{table_kept};
ghost use Rattle.capture.specs.Capture.{answers_after};
ghost use Rattle.exports.specs.Exports.{scan_answer, numbering_answer, priorities_left, chain_left};
ghost use Rattle.text.specs.Listing.{listing_of};
ghost use Rattle.calls.specs.Replies.{action_width, failure_width, table_refusal_width, refusal_width};
ghost use Rattle.calls.specs.Replies.{layout_width, found_width, law_number, action_words, refusal_words};
ghost use Rattle.calls.specs.Replies.{failure_words, broken_words, table_refusal_words, of_table, layout_words};
ghost use Rattle.calls.specs.Replies.{found_words, row_count_words, answer_words, captured_words};
ghost use Rattle.calls.specs.Replies.{compile_reply, number_reply, hidden_reply, capture_reply, text_reply};
ghost use Rattle.calls.specs.Replies.{answered_reply, agent_scan_reply, agent_number_reply};

use crate::draft::Draft;
use crate::put::{put_padding, put_words, put_zeros};
use action::{Action, ActionWords, LawFailure};
use capture::scan_capture;
use compile::compile;
use exports::{agent_number, agent_scan};
use hidden::drop_hidden;
use policy::Layout;
use priority::number;
use refusal::Refusal;
use streams::{Sink, low};
use table::Found;

/// What is put into a sink as words.
pub trait Reply {
    /// Its words.
    ghost words: { Self → List ℕ };

    /// Puts its words in.
    fn reply<S: Sink>(&self, sink: &mut S)
        ensures { S.gives sink.old (flat bytes_of (words self.now)) sink.new };
}

/// What has as many words for every value, so that zeros can stand in its place.
pub trait Value: Reply {
    /// How many words it is.
    const WIDTH: usize;

    ghost WIDTH: { ℕ };

    ghost wide: { (x : Self) → length (Self.words x) ≡ WIDTH };
}

/// A refusal of a table, which breaks no law.
#[derive(Clone, Copy)]
pub struct TableRefusal {
    pub refusal: Refusal,
}

impl From<Refusal> for TableRefusal {
    ghost use Rattle.std.specs.Prelude.{◌≡◌};

    ghost from_gives = { λ refusal r. r ≡ record { refusal = refusal } };

    fn from(refusal: Refusal) -> TableRefusal {
        TableRefusal { refusal }
    }
}

/// Number and place, and the broken law.
impl Reply for Refusal {
    ghost words = { refusal_words };

    fn reply<S: Sink>(&self, sink: &mut S) {
        TableRefusal { refusal: *self }.reply(sink);
        match self.reason.failure() {
            Some(failure) => failure.reply(sink),
            None => put_zeros(LawFailure::WIDTH, sink),
        }
    }
}

impl Value for Refusal {
    ghost use Rattle.calls.specs.Widths.{refusal-wide};

    const WIDTH: usize = TableRefusal::WIDTH + LawFailure::WIDTH;

    ghost WIDTH = { refusal_width };

    ghost wide = { refusal-wide };
}

/// The law's number, and three actions: don't care is the third where two show it.
impl Reply for LawFailure {
    ghost words = { failure_words };

    fn reply<S: Sink>(&self, sink: &mut S) {
        let actions = self.actions();
        put_words(&[law_number(*self)], sink);
        // The law and the actions so far are put in.
        for action in &actions {
            action.reply(sink);
        }
    }
}

impl Value for LawFailure {
    ghost use Rattle.calls.specs.Widths.{failure-wide};

    const WIDTH: usize = 1 + 3 * Action::WIDTH;

    ghost WIDTH = { failure_width };

    ghost wide = { failure-wide };
}

/// Number and place.
impl Reply for TableRefusal {
    ghost words = { table_refusal_words };

    fn reply<S: Sink>(&self, sink: &mut S) {
        put_words(
            &[self.refusal.reason.number(), low(self.refusal.place)],
            sink,
        );
    }
}

impl Value for TableRefusal {
    ghost use Rattle.calls.specs.Widths.{table_refusal-wide};

    const WIDTH: usize = 2;

    ghost WIDTH = { table_refusal_width };

    ghost wide = { table_refusal-wide };
}

/// Kind and rate.
impl Reply for Action {
    ghost words = { action_words };

    fn reply<S: Sink>(&self, sink: &mut S) {
        put_words(&ActionWords::from(*self), sink);
    }
}

impl Value for Action {
    ghost use Rattle.calls.specs.Widths.{action-wide};

    const WIDTH: usize = 2;

    ghost WIDTH = { action_width };

    ghost wide = { action-wide };
}

/// The three counts of a file.
impl Reply for Layout {
    ghost words = { layout_words };

    fn reply<S: Sink>(&self, sink: &mut S) {
        put_words(
            &[low(self.operators), low(self.atoms), low(self.nodes)],
            sink,
        );
    }
}

impl Value for Layout {
    ghost use Rattle.calls.specs.Widths.{layout-wide};

    const WIDTH: usize = 3;

    ghost WIDTH = { layout_width };

    ghost wide = { layout-wide };
}

/// The action, and how many rows were tried.
impl Reply for Found {
    ghost words = { found_words };

    fn reply<S: Sink>(&self, sink: &mut S) {
        self.action.reply(sink);
        put_words(&[low(self.tried)], sink);
    }
}

impl Value for Found {
    ghost use Rattle.calls.specs.Widths.{found-wide};

    const WIDTH: usize = Action::WIDTH + 1;

    ghost WIDTH = { found_width };

    ghost wide = { found-wide };
}

/// A count of rows.
impl Reply for usize {
    ghost words = { row_count_words };

    fn reply<S: Sink>(&self, sink: &mut S) {
        put_words(&[low(*self)], sink);
    }
}

impl Value for usize {
    ghost use Rattle.calls.specs.Widths.{word-wide};

    const WIDTH: usize = 1;

    ghost WIDTH = { 1 };

    ghost wide = { word-wide };
}

/// A count of priorities.
impl Reply for u32 {
    ghost use Rattle.std.specs.Prelude.{◌∷◌, []};

    ghost words = { λ n. n ∷ [] };

    fn reply<S: Sink>(&self, sink: &mut S) {
        put_words(&[*self], sink);
    }
}

impl Value for u32 {
    ghost use Rattle.calls.specs.Widths.{word-wide};

    const WIDTH: usize = 1;

    ghost WIDTH = { 1 };

    ghost wide = { word-wide };
}

/// The refusal, and then the value, zeros for the one that there is not.
impl<T: Value, E: Value> Reply for Result<T, E> {
    ghost words = { answer_words T.WIDTH T.words E.WIDTH E.words };

    fn reply<S: Sink>(&self, sink: &mut S) {
        match self {
            Ok(value) => {
                put_zeros(E::WIDTH, sink);
                value.reply(sink);
            }
            Err(refusal) => {
                refusal.reply(sink);
                put_zeros(T::WIDTH, sink);
            }
        }
    }
}

// The answer of a function that takes a table.
pub(crate) fn of_table<T: Drop>(answer: Result<T, Refusal>) -> Result<T, TableRefusal>
    ensures { result ≡ of_table answer }
{
    answer.map_err(TableRefusal::from)
}

// Puts in the number and place of the answer for a capture: zeros where it is no refusal.
#[tactic(auto, unfolding(crate::specs::Replies::captured_words))]
fn put_captured<S: Sink>(answer: Result<usize, Refusal>, sink: &mut S)
    ensures { S.gives sink.old (flat bytes_of (captured_words answer)) sink.new }
{
    match answer {
        Ok(_) => put_zeros(TableRefusal::WIDTH, sink),
        Err(refusal) => TableRefusal::from(refusal).reply(sink),
    }
}

/// Compiles a policy file; the table and the scratch are put in too. It and the five that follow stay six functions:
/// each states what its own lent buffers hold.
#[tactic(auto, unfolding(crate::specs::Replies::compile_reply))]
pub fn reply_compile<S: Sink>(file: &[u32], table: &mut [u32], scratch: &mut [u32], sink: &mut S)
    ensures table_after { table.new ≡ table_after file.now table.old scratch.old }
    ensures scratch_after { scratch.new ≡ scratch_after file.now table.old scratch.old }
    ensures given { S.gives sink.old (compile_reply file.now table.old scratch.old) sink.new }
{
    compile(file, table, scratch).reply(sink);
    put_words(table, sink);
    put_words(scratch, sink);
}

/// Numbers a table; the priorities and the chain are put in too.
#[tactic(auto, unfolding(crate::specs::Replies::number_reply))]
pub fn reply_number<S: Sink>(table: &[u32], priorities: &mut [u32], chain: &mut [u32], sink: &mut S)
    ensures priorities_after { priorities.new ≡ priorities_after table.now priorities.old
        chain.old }
    ensures chain_after { chain.new ≡ chain_after table.now priorities.old chain.old }
    ensures given { S.gives sink.old (number_reply table.now priorities.old chain.old) sink.new }
{
    of_table(number(table, priorities, chain)).reply(sink);
    put_words(priorities, sink);
    put_words(chain, sink);
}

/// Takes the hidden rows out of a table, which is put in too.
#[tactic(auto, unfolding(crate::specs::Replies::hidden_reply))]
pub fn reply_hidden<S: Sink>(table: &mut [u32], sink: &mut S)
    ensures table_after { table.new ≡ table_kept table.old }
    ensures given { S.gives sink.old (hidden_reply table.old) sink.new }
{
    of_table(drop_hidden(table)).reply(sink);
    put_words(table, sink);
}

/// Scans a table for each packet of a capture; the buffer of what is found is put in too. No count is: the caller knows
/// how many packets it sent.
#[tactic(auto, unfolding(crate::specs::Replies::capture_reply))]
pub fn reply_capture<S: Sink>(table: &[u32], packets: &[u32], answers: &mut [u32], sink: &mut S)
    ensures answers_after { answers.new ≡ answers_after table.now packets.now answers.old }
    ensures given { S.gives sink.old (capture_reply table.now packets.now answers.old) sink.new }
{
    put_captured(scan_capture(table, packets, answers), sink);
    put_words(answers, sink);
}

/// Scans a table for a packet, as an agent does; its number is put in, and the answer's buffer.
#[tactic(auto, unfolding(crate::specs::Replies::agent_scan_reply))]
pub fn reply_agent_scan<S: Sink>(table: &[u8], packet: &[u8], answer: &mut [u8], sink: &mut S)
    ensures answer_after { answer.new ≡ scan_answer table.now packet.now answer.old }
    ensures given { S.gives sink.old (agent_scan_reply table.now packet.now answer.old) sink.new }
{
    put_answered(agent_scan(table, packet, answer), answer, sink);
}

/// Numbers a table, as an agent does; its number is put in, and the answer's buffer, the priorities and the chain.
#[tactic(auto, unfolding(crate::specs::Replies::agent_number_reply))]
pub fn reply_agent_number<S: Sink>(
    table: &[u8],
    priorities: &mut [u8],
    chain: &mut [u8],
    answer: &mut [u8],
    sink: &mut S,
)
    ensures answer_after { answer.new
        ≡ numbering_answer table.now priorities.old chain.old answer.old }
    ensures priorities_after { priorities.new
        ≡ priorities_left table.now priorities.old chain.old answer.old }
    ensures chain_after { chain.new ≡ chain_left table.now priorities.old chain.old answer.old }
    ensures given { S.gives sink.old
        (agent_number_reply table.now priorities.old chain.old answer.old) sink.new }
{
    put_answered(agent_number(table, priorities, chain, answer), answer, sink);
    put_text(priorities, sink);
    put_text(chain, sink);
}

/// Lists a file.
pub fn reply_list<S: Sink>(file: &[u8], sink: &mut S)
    ensures { S.gives sink.old (text_reply (listing_of file.now)) sink.new }
{
    reply_listing(file, &mut Draft::new(), sink);
}

// The same. The listing is kept in a draft before it is put in, since its length stands before it.
pub(crate) fn reply_listing<S: Sink>(file: &[u8], draft: &mut Draft, sink: &mut S)
    ensures { S.gives sink.old (text_reply (listing_of file.now)) sink.new }
{
    draft.clear();
    text::list(file, draft);
    let length = draft.length();
    put_words(&[length], sink);
    put_listing(draft, file, sink);
    put_padding(length as usize, sink);
}

// Puts in the listing of a file that a draft was made of. One for which a draft had no room would be listed anew.
fn put_listing<S: Sink>(draft: &Draft, file: &[u8], sink: &mut S)
    requires { draft.now.whole ≡ true → draft.now.text.items ≡ listing_of file.now }
    ensures { S.gives sink.old (listing_of file.now) sink.new }
{
    match draft.whole_text() {
        Some(text) => sink.put(text),
        None => text::list(file, sink),
    }
}

// Puts in what an agent's call answered: its number, and the answer's buffer.
#[tactic(auto, unfolding(crate::specs::Replies::answered_reply))]
fn put_answered<S: Sink>(number: u32, answer: &[u8], sink: &mut S)
    ensures { S.gives sink.old (answered_reply number answer.now) sink.new }
{
    put_words(&[number], sink);
    put_text(answer, sink);
}

// Puts bytes in: how many there are, they, and zeros up to a whole word.
fn put_text<S: Sink>(bytes: &[u8], sink: &mut S)
    ensures { S.gives sink.old (text_reply bytes.now) sink.new }
{
    put_words(&[low(bytes.len())], sink);
    sink.put(bytes);
    put_padding(bytes.len(), sink);
}

// The number of a broken law in a reply; it stands here alone.
fn law_number(failure: LawFailure) -> u32
    ensures { result ≡ law_number failure }
{
    match failure {
        LawFailure::Commutativity(..) => 1,
        LawFailure::Associativity(..) => 2,
    }
}
