//! Calls: how each is taken from an input, and answered into a sink.

ghost use Rattle.std.specs.Prelude.{◌≤◌, length, take, IfSome};
ghost use Rattle.std.specs.Option.{option_map};
ghost use Rattle.calls.specs.Taken.{bytes_in, word_in, count_in, slice_in, text_in, Takes};

use crate::draft::Draft;
use crate::put::padding;
use crate::replies::{
    Reply, of_table, reply_agent_number, reply_agent_scan, reply_capture, reply_compile,
    reply_hidden, reply_listing, reply_number,
};
use std::io::Read;
use streams::{Input, Sink};
use words::WORD_BYTES;

// The longest slice taken, in words. A table of one row too many has 45067, so every refusal can be asked for.
const MOST_WORDS: usize = 45100;

// The longest input of a listing, in bytes. One that is refused as too long has 51341, or more.
const MOST_BYTES: usize = 52000;

// The longest buffer of an agent's call, in bytes. A table of one row too many has 180268.
const MOST_LENT: usize = 180300;

/// Room for the slices of one call, so that no call fails for want of memory. What is in it between two calls, nobody
/// sees.
#[derive(Drop)]
pub struct Room {
    bytes: [u8; WORD_BYTES * MOST_WORDS],
    second_bytes: [u8; MOST_LENT],
    third_bytes: [u8; MOST_LENT],
    fourth_bytes: [u8; MOST_LENT],
    first: [u32; MOST_WORDS],
    second: [u32; MOST_WORDS],
    third: [u32; MOST_WORDS],
    draft: Draft,
}

impl Room {
    ghost use Rattle.calls.specs.Taken.{two_in, three_in, read_in, tree_action_in, compile_in, scan_in, number_in};
    ghost use Rattle.calls.specs.Taken.{two_lent_in, three_lent_in, four_lent_in, list_in, hidden_in, capture_in};
    ghost use Rattle.calls.specs.Taken.{agent_scan_in, agent_number_in, call_in, Answers};

    /// One that is blank.
    pub fn new() -> Room {
        Room {
            bytes: [0; WORD_BYTES * MOST_WORDS],
            second_bytes: [0; MOST_LENT],
            third_bytes: [0; MOST_LENT],
            fourth_bytes: [0; MOST_LENT],
            first: [0; MOST_WORDS],
            second: [0; MOST_WORDS],
            third: [0; MOST_WORDS],
            draft: Draft::new(),
        }
    }

    /// Takes one call and puts its reply into a sink, and reads no byte behind the call. `None`, and nothing is put in,
    /// where the input ends within the call, where its number is none, where a slice is too long and where a read
    /// failed. No byte is read behind such a number or such a slice's length. Only where a read failed is it left open
    /// how far the input was read.
    #[tactic(auto, using(crate::proofs::Takes::answers_number, crate::proofs::Takes::answers_no_number))]
    pub fn answer<R: Read, S: Sink>(&mut self, input: &mut Input<R>, sink: &mut S) -> Option<()>
        ensures { Answers R.remaining S.gives call_in input.old input.new sink.old sink.new result }
    {
        // The number of each call.
        match take_word(input)? {
            1 => self.answer_read(input, sink),
            2 => self.answer_tree_action(input, sink),
            3 => self.answer_compile(input, sink),
            4 => self.answer_scan(input, sink),
            5 => self.answer_number(input, sink),
            6 => self.answer_list(input, sink),
            7 => self.answer_hidden(input, sink),
            8 => self.answer_capture(input, sink),
            9 => self.answer_agent_scan(input, sink),
            10 => self.answer_agent_number(input, sink),
            _ => None,
        }
    }

    #[tactic(auto, using(crate::proofs::Takes::answers_none))]
    fn answer_read<R: Read, S: Sink>(&mut self, input: &mut Input<R>, sink: &mut S) -> Option<()>
        ensures { Answers R.remaining S.gives read_in input.old input.new sink.old sink.new result }
    {
        let file = self.take_one(input)?;
        policy::read(&self.first[..file]).reply(sink);
        Some(())
    }

    #[tactic(auto, using(crate::proofs::Takes::answers_none))]
    fn answer_tree_action<R: Read, S: Sink>(
        &mut self,
        input: &mut Input<R>,
        sink: &mut S,
    ) -> Option<()>
        ensures { Answers R.remaining S.gives tree_action_in input.old input.new sink.old sink.new result }
    {
        let (file, packet) = self.take_two(input)?;
        tree::tree_action(&self.first[..file], &self.second[..packet]).reply(sink);
        Some(())
    }

    #[tactic(auto, using(crate::proofs::Takes::answers_none))]
    fn answer_compile<R: Read, S: Sink>(&mut self, input: &mut Input<R>, sink: &mut S) -> Option<()>
        ensures { Answers R.remaining S.gives compile_in input.old input.new sink.old sink.new result }
    {
        let (file, table, scratch) = self.take_three(input)?;
        // The borrow checker lends parts of two fields at once only by way of the whole.
        let (second, third) = (&mut self.second[..], &mut self.third[..]);
        reply_compile(
            &self.first[..file],
            &mut second[..table],
            &mut third[..scratch],
            sink,
        );
        Some(())
    }

    #[tactic(auto, using(crate::proofs::Takes::answers_none))]
    fn answer_scan<R: Read, S: Sink>(&mut self, input: &mut Input<R>, sink: &mut S) -> Option<()>
        ensures { Answers R.remaining S.gives scan_in input.old input.new sink.old sink.new result }
    {
        let (table, packet) = self.take_two(input)?;
        of_table(table::scan(&self.first[..table], &self.second[..packet])).reply(sink);
        Some(())
    }

    #[tactic(auto, using(crate::proofs::Takes::answers_none))]
    fn answer_number<R: Read, S: Sink>(&mut self, input: &mut Input<R>, sink: &mut S) -> Option<()>
        ensures { Answers R.remaining S.gives number_in input.old input.new sink.old sink.new result }
    {
        let (table, priorities, chain) = self.take_three(input)?;
        // As in the compile.
        let (second, third) = (&mut self.second[..], &mut self.third[..]);
        reply_number(
            &self.first[..table],
            &mut second[..priorities],
            &mut third[..chain],
            sink,
        );
        Some(())
    }

    #[tactic(auto, using(crate::proofs::Takes::answers_none))]
    fn answer_list<R: Read, S: Sink>(&mut self, input: &mut Input<R>, sink: &mut S) -> Option<()>
        ensures { Answers R.remaining S.gives list_in input.old input.new sink.old sink.new result }
    {
        let file = take_text(input, MOST_BYTES, &mut self.bytes)?;
        reply_listing(&self.bytes[..file], &mut self.draft, sink);
        Some(())
    }

    #[tactic(auto, using(crate::proofs::Takes::answers_none))]
    fn answer_hidden<R: Read, S: Sink>(&mut self, input: &mut Input<R>, sink: &mut S) -> Option<()>
        ensures { Answers R.remaining S.gives hidden_in input.old input.new sink.old sink.new result }
    {
        let table = self.take_one(input)?;
        reply_hidden(&mut self.first[..table], sink);
        Some(())
    }

    #[tactic(auto, using(crate::proofs::Takes::answers_none))]
    fn answer_capture<R: Read, S: Sink>(&mut self, input: &mut Input<R>, sink: &mut S) -> Option<()>
        ensures { Answers R.remaining S.gives capture_in input.old input.new sink.old sink.new result }
    {
        let (table, packets, answers) = self.take_three(input)?;
        // As in the compile.
        let third = &mut self.third[..];
        reply_capture(
            &self.first[..table],
            &self.second[..packets],
            &mut third[..answers],
            sink,
        );
        Some(())
    }

    #[tactic(auto, using(crate::proofs::Takes::answers_none))]
    fn answer_agent_scan<R: Read, S: Sink>(
        &mut self,
        input: &mut Input<R>,
        sink: &mut S,
    ) -> Option<()>
        ensures { Answers R.remaining S.gives agent_scan_in input.old input.new sink.old sink.new result }
    {
        let (table, packet, answer) = self.take_three_lent(input)?;
        // As in the compile.
        let third_bytes = &mut self.third_bytes[..];
        reply_agent_scan(
            &self.bytes[..table],
            &self.second_bytes[..packet],
            &mut third_bytes[..answer],
            sink,
        );
        Some(())
    }

    #[tactic(auto, using(crate::proofs::Takes::answers_none))]
    fn answer_agent_number<R: Read, S: Sink>(
        &mut self,
        input: &mut Input<R>,
        sink: &mut S,
    ) -> Option<()>
        ensures { Answers R.remaining S.gives agent_number_in input.old input.new sink.old sink.new result }
    {
        let (table, priorities, chain, answer) = self.take_four_lent(input)?;
        // As in the compile.
        let (second_bytes, third_bytes) = (&mut self.second_bytes[..], &mut self.third_bytes[..]);
        let fourth_bytes = &mut self.fourth_bytes[..];
        reply_agent_number(
            &self.bytes[..table],
            &mut second_bytes[..priorities],
            &mut third_bytes[..chain],
            &mut fourth_bytes[..answer],
            sink,
        );
        Some(())
    }

    // Takes a slice into the first buffer: how many words there are.
    fn take_one<R: Read>(&mut self, input: &mut Input<R>) -> Option<usize>
        ensures within { IfSome result (λ n. n ≤ MOST_WORDS) }
        ensures taken { Takes R.remaining slice_in input.old input.new
            (option_map (λ n. take n self.new.first) result) }
    {
        take_slice(input, &mut self.bytes, &mut self.first)
    }

    // Takes two slices, into the first and the second buffer.
    #[tactic(auto, using(crate::proofs::Takes::parts), unfolding(crate::specs::Taken::two_in))]
    fn take_two<R: Read>(&mut self, input: &mut Input<R>) -> Option<(usize, usize)>
        ensures first_within { IfSome result (λ n. n.0 ≤ MOST_WORDS) }
        ensures second_within { IfSome result (λ n. n.1 ≤ MOST_WORDS) }
        ensures taken { Takes R.remaining two_in input.old input.new
            (option_map (λ n. (take n.0 self.new.first, take n.1 self.new.second)) result) }
    {
        let first = self.take_one(input)?;
        let second = take_slice(input, &mut self.bytes, &mut self.second)?;
        Some((first, second))
    }

    // Takes three slices, one into each buffer.
    #[tactic(auto, using(crate::proofs::Takes::parts), unfolding(crate::specs::Taken::three_in))]
    fn take_three<R: Read>(&mut self, input: &mut Input<R>) -> Option<(usize, usize, usize)>
        ensures first_within { IfSome result (λ n. n.0 ≤ MOST_WORDS) }
        ensures second_within { IfSome result (λ n. n.1 ≤ MOST_WORDS) }
        ensures third_within { IfSome result (λ n. n.2 ≤ MOST_WORDS) }
        ensures taken { Takes R.remaining three_in input.old input.new
            (option_map (λ n. (
              take n.0 self.new.first,
              take n.1 self.new.second,
              take n.2 self.new.third,
            )) result) }
    {
        let (first, second) = self.take_two(input)?;
        let third = take_slice(input, &mut self.bytes, &mut self.third)?;
        Some((first, second, third))
    }

    // Takes two buffers of bytes, into the first and the second of bytes.
    #[tactic(auto, using(crate::proofs::Takes::parts), unfolding(crate::specs::Taken::two_lent_in))]
    fn take_two_lent<R: Read>(&mut self, input: &mut Input<R>) -> Option<(usize, usize)>
        ensures first_within { IfSome result (λ n. n.0 ≤ MOST_LENT) }
        ensures second_within { IfSome result (λ n. n.1 ≤ MOST_LENT) }
        ensures taken { Takes R.remaining two_lent_in input.old input.new
            (option_map (λ n. (take n.0 self.new.bytes, take n.1 self.new.second_bytes)) result) }
    {
        let first = take_text(input, MOST_LENT, &mut self.bytes)?;
        let second = take_text(input, MOST_LENT, &mut self.second_bytes)?;
        Some((first, second))
    }

    // Takes three.
    #[tactic(auto, using(crate::proofs::Takes::parts), unfolding(crate::specs::Taken::three_lent_in))]
    fn take_three_lent<R: Read>(&mut self, input: &mut Input<R>) -> Option<(usize, usize, usize)>
        ensures first_within { IfSome result (λ n. n.0 ≤ MOST_LENT) }
        ensures second_within { IfSome result (λ n. n.1 ≤ MOST_LENT) }
        ensures third_within { IfSome result (λ n. n.2 ≤ MOST_LENT) }
        ensures taken { Takes R.remaining three_lent_in input.old input.new
            (option_map (λ n. (
              take n.0 self.new.bytes,
              take n.1 self.new.second_bytes,
              take n.2 self.new.third_bytes,
            )) result) }
    {
        let (first, second) = self.take_two_lent(input)?;
        let third = take_text(input, MOST_LENT, &mut self.third_bytes)?;
        Some((first, second, third))
    }

    // Takes four, one into each buffer of bytes.
    #[tactic(auto, using(crate::proofs::Takes::parts), unfolding(crate::specs::Taken::four_lent_in))]
    fn take_four_lent<R: Read>(
        &mut self,
        input: &mut Input<R>,
    ) -> Option<(usize, usize, usize, usize)>
        ensures first_within { IfSome result (λ n. n.0 ≤ MOST_LENT) }
        ensures second_within { IfSome result (λ n. n.1 ≤ MOST_LENT) }
        ensures third_within { IfSome result (λ n. n.2 ≤ MOST_LENT) }
        ensures fourth_within { IfSome result (λ n. n.3 ≤ MOST_LENT) }
        ensures taken { Takes R.remaining four_lent_in input.old input.new
            (option_map (λ n. (
              take n.0 self.new.bytes,
              take n.1 self.new.second_bytes,
              take n.2 self.new.third_bytes,
              take n.3 self.new.fourth_bytes,
            )) result) }
    {
        let (first, second, third) = self.take_three_lent(input)?;
        let fourth = take_text(input, MOST_LENT, &mut self.fourth_bytes)?;
        Some((first, second, third, fourth))
    }
}

// Takes a slice of words into a buffer: how many there are.
#[tactic(auto, using(crate::proofs::Takes::takes_none), unfolding(crate::specs::Taken::slice_in))]
fn take_slice<R: Read>(
    input: &mut Input<R>,
    bytes: &mut [u8; WORD_BYTES * MOST_WORDS],
    words: &mut [u32; MOST_WORDS],
) -> Option<usize>
    ensures within { IfSome result (λ n. n ≤ MOST_WORDS) }
    ensures taken { Takes R.remaining slice_in input.old input.new
        (option_map (λ n. take n words.new) result) }
{
    let count = take_count(input, MOST_WORDS)?;
    let sent = &mut bytes[..WORD_BYTES * count];
    take_full(input, sent)?;
    words::from_bytes(sent, words);
    Some(count)
}

// Takes bytes into a buffer that has room for the most, and the words that hold them: how many there are.
#[tactic(auto, using(crate::proofs::Takes::takes_none), unfolding(crate::specs::Taken::text_in))]
fn take_text<R: Read>(input: &mut Input<R>, most: usize, bytes: &mut [u8]) -> Option<usize>
    requires { most ≤ length bytes.old }
    ensures within { IfSome result (λ n. n ≤ most) }
    ensures taken { Takes R.remaining (text_in most) input.old input.new
        (option_map (λ n. take n bytes.new) result) }
{
    let count = take_count(input, most)?;
    take_full(input, &mut bytes[..count])?;
    let mut behind = [0u8; WORD_BYTES];
    take_full(input, &mut behind[..padding(count)])?;
    Some(count)
}

// Takes how many words or bytes come. `None` also where they are more than the caller takes.
#[tactic(auto, using(crate::proofs::Takes::counts), unfolding(crate::specs::Taken::count_in))]
fn take_count<R: Read>(input: &mut Input<R>, most: usize) -> Option<usize>
    ensures within { IfSome result (λ n. n ≤ most) }
    ensures taken { Takes R.remaining (count_in most) input.old input.new result }
{
    let count = take_word(input)? as usize;
    if count <= most { Some(count) } else { None }
}

// Takes one word.
#[tactic(auto, using(crate::proofs::Takes::takes_found), unfolding(crate::specs::Taken::word_in))]
fn take_word<R: Read>(input: &mut Input<R>) -> Option<u32>
    ensures { Takes R.remaining word_in input.old input.new result }
{
    let mut bytes = [0u8; WORD_BYTES];
    take_full(input, &mut bytes)?;
    Some(u32::from_le_bytes(bytes))
}

// Takes as many bytes as a buffer has. `None` where the input ends before, and where a read failed.
#[tactic(auto, using(crate::proofs::Takes::takes_full))]
fn take_full<R: Read>(input: &mut Input<R>, buf: &mut [u8]) -> Option<()>
    ensures { Takes R.remaining (bytes_in (length buf.new)) input.old input.new
        (option_map (λ _. buf.new) result) }
{
    let count = input.fill(buf)?;
    if count < buf.len() { None } else { Some(()) }
}

#[cfg(test)]
mod tests {
    use super::*;
    use std::test::Fail;
    use streams::Output;

    #[test]
    fn takes_and_answers(rt: HostRuntime) -> Result<(), Fail> {
        let sent = b"\x07\0\0\0\0\0\0\0\x06\0\0\0\x01\0\0\0abcd\x07\0\0\0";
        let mut input = Input::new(sent.as_slice());
        let mut writer = Vec::new(rt.alloc());
        let mut output = Output::new(&mut writer);
        let mut room = Room::new();
        assert_eq!(rt; room.answer(&mut input, &mut output), Some(()));
        assert_eq!(rt; room.answer(&mut input, &mut output), Some(()));
        assert_eq!(rt; room.answer(&mut input, &mut output), None);
        output.flush();
        let replies = b"\0\0\0\0\0\0\0\0\0\0\0\0\x0d\0\0\0refused 18 0\n\0\0\0";
        assert_eq!(rt; writer.as_slice(), replies.as_slice());
        Ok(())
    }
}
